// The start of a walk, planted in a table of zeros: its ancestors from the root down, each the child of the one before, then the
// start itself and its first visit.
#![tactic(auto)]

ghost use Rattle.std.specs.Prelude.{◌≡◌, ◌^◌, ◌<◌, ◌≤◌, length, replicate};
ghost use Rattle.answer.specs.Limits.{Near};
ghost use Rattle.layout.specs.Table.{width};
ghost use Rattle.walk_table.specs.Refs.{ref_by};
ghost use Rattle.walk_plant.specs.Plants.{Deep, Grown, Planted};

use grid::Corner;

// How many parents c has.
pub fn depth(c: Corner) -> usize
    requires { Near c }
    ensures { Deep c result }
{
    let mut at = c;
    let mut levels: usize = 0;
    while !walk_corner::is_root(at) {
        at = walk_corner::parent_of(at);
        levels += 1;
    }
    levels
}

// The nodes from the root down to c, in a table of zeros; no step needs them. Answers the node of c, which is the last of them,
// or None if the table is too small.
fn grow(t: &mut [u32], c: Corner) -> Option<usize>
    requires { Near c × (t.old ≡ replicate (length t.old) 0) × (width ≤ length t.old) × (length t.old < 2 ^ 32) }
    ensures { Grown (length t.old) c t.new (ref_by result) }
{
    let mut last = 0;
    for left in (0..depth(c)).rev() {
        let place = walk_corner::child_word(walk_corner::up_by(c, left));
        last = walk_lookup::child(t, last + 1, last, place, 0)?;
    }
    Some(last)
}

// Makes a table of zeros that of the walk from c with no step. Answers the node of c, or None if the table is too small: then it
// is cleared.
pub fn plant(t: &mut [u32], c: Corner) -> Option<usize>
    requires { Near c × (t.old ≡ replicate (length t.old) 0) × (width ≤ length t.old) × (length t.old < 2 ^ 32) }
    ensures { Planted (length t.old) c t.new (ref_by result) }
{
    let Some(at) = grow(t, c) else {
        walk_table::zero(t);
        return None;
    };
    walk_table::visit(t, at, 0);
    Some(at)
}
