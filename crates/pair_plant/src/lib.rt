// The starts of two parties, planted in a cleared table: the root for both, then the ancestors of the first from the root down,
// then those of the second that are not there, and the first visit of each.
#![tactic(auto)]

ghost use Rattle.std.specs.Prelude.{List, [], ◌∷◌, ◌≡◌, ◌^◌, ◌<◌, ◌≤◌, length};
ghost use Rattle.pair_table_laws.specs.Stores.{root_table};
ghost use Rattle.answer.specs.Limits.{Near};
ghost use Rattle.tree_laws.specs.State.{state_of, planted_of};
ghost use Rattle.pair_table.specs.Slots.{Slot};
ghost use Rattle.pair_table.specs.Words.{pair_width};
ghost use Rattle.pair_table_laws.specs.Hold.{Both};
ghost use Rattle.pair_child.specs.Finds.{Finds};
ghost use Rattle.pair_plant.specs.Plants.{root_stock, Plants, Planting};

use grid::Corner;
use pair_child::{Located, Stock};
use pair_words::need;

// A cleared table with the root, which both parties need from the beginning.
pub fn begin(t: &mut [u32]) -> Stock
    requires { pair_width ≤ length t.old }
    ensures { (t.new ≡ root_table (length t.old)) × (result ≡ root_stock) }
{
    walk_table::zero(t);
    need(t, 0, 0, 0);
    need(t, 1, 0, 0);
    Stock { nodes: 1, low: 1 }
}

// The nodes from the root down to c, needed by party q from the beginning. Answers c, or None if the table is too small.
fn grow(t: &mut [u32], q: usize, s: Stock, c: Corner) -> Option<Located>
    requires planting { Planting t.old q s }
    requires near { Near c × (q < 2) × (length t.old < 2 ^ 32) }
    ensures { (slots : List Slot) (C : Both) → Plants t.old slots C q s
        → Finds C slots q (planted_of c) c t.old t.new result }
{
    let mut to = Located { node: 0, stock: s };
    for left in (0..walk_plant::depth(c)).rev() {
        let place = walk_corner::child_word(walk_corner::up_by(c, left));
        to = pair_child::child(t, q, to.stock, to.node, place, 0)?;
    }
    Some(to)
}

// The start c of party q, which needs the root alone: its nodes, and its first visit. Answers c, or None if the table is too
// small.
pub fn plant(t: &mut [u32], q: usize, s: Stock, c: Corner) -> Option<Located>
    requires planting { Planting t.old q s }
    requires near { Near c × (q < 2) × (length t.old < 2 ^ 32) }
    ensures { (slots : List Slot) (C : Both) → Plants t.old slots C q s
        → Finds C slots q (state_of (c ∷ [])) c t.old t.new result }
{
    let to = grow(t, q, s, c)?;
    pair_words::visit(t, q, to.node, 0);
    Some(to)
}
