// What a take-back clears: the links and the nodes that the last step made.
#![tactic(auto)]

ghost use Rattle.std.specs.Prelude.{◌≡◌, ◌+◌, ◌-◌, ◌*◌, ◌<◌, length, get_or, set, replicate};
ghost use Rattle.std.proofs.lemmas.List.Edits.{sets};
ghost use Rattle.grid.specs.declared.Corner.{Corner as Node};
ghost use Rattle.grid.specs.Tree.{child_word};
ghost use Rattle.layout.specs.Table.{width, word_at, parent_word};
ghost use Rattle.tree_laws.specs.State.{State, unlinking, table_by};
ghost use Rattle.walk_table.specs.Refs.{ref_by};
ghost use Rattle.walk_back.specs.Takes.{Joined, Cleared, Unlinks, Unlinkable, Newest, Drops, Droppable};

use grid::Corner;
use walk_table::{Record, put, word};

// One level: clears the link of u in the direction d if the step made it. Answers the parent, the next level, or None if all is
// done.
fn unlink_level(t: &mut [u32], u: usize, d: usize, step: u32) -> Option<usize>
    requires { Joined t.old u d × (0 < step) }
    ensures { Cleared t.old u d step t.new (ref_by result) }
{
    if word(t, u, Record::LINK_STEP + d) == step {
        let to = word(t, u, Record::NEIGHBOUR + d) as usize;
        walk_table::unlink(t, u, to - 1, d);
        let up = word(t, u, Record::PARENT) as usize;
        return up.checked_sub(1);
    }
    None
}

// Clears the links that the step made, from u in the direction d and up.
pub fn unlink_up(t: &mut [u32], u: usize, d: usize, step: u32)
    requires { Unlinkable t.old u d step }
    ensures { (S : State) (z : Node) → Unlinks t.old u d step S z
        → t.new ≡ table_by (length t.old) (unlinking S step z S.step) }
{
    let mut next = Some(u);
    while let Some(at) = next {
        next = unlink_level(t, at, d, step);
    }
}

// One node: takes u, which stands for c, off the end of the table. Answers its parent's number.
fn drop_node(t: &mut [u32], u: usize, c: Corner) -> usize
    requires { Newest t.old u c }
    ensures { (result ≡ get_or t.old (word_at u parent_word) 0 - 1)
        × (t.new ≡ sets (set t.old (word_at result (child_word c)) 0) (u * width) (replicate width 0)) }
{
    let up = word(t, u, Record::PARENT) as usize - 1;
    put(t, up, walk_corner::child_word(c), 0);
    walk_table::clear_record(t, u);
    up
}

// Takes the nodes that the step needed off the end of the table, from u (which stands for c) and up. Answers how many are left.
pub fn drop_up(t: &mut [u32], nodes: usize, u: usize, c: Corner, step: u32) -> usize
    requires { Droppable t.old nodes u c step }
    ensures { (S : State) → Drops t.old nodes u c step S
        → (t.new ≡ table_by (length t.old) S) × (result ≡ length S.nodes) }
{
    let mut left = nodes;
    let mut at = u;
    let mut here = c;
    while word(t, at, Record::NEED) == step {
        at = drop_node(t, at, here);
        left -= 1;
        here = walk_corner::parent_of(here);
    }
    left
}
