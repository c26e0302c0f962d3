// A walk follows its operations, one after the other, and marks each.
#![tactic(auto)]

ghost use Rattle.std.specs.Prelude.{List, ◌≡◌, ℕ, suc, ◌+◌, ◌*◌, ◌^◌, ◌<◌, ◌≤◌, length, set, Ok, get_or};
ghost use Rattle.grid.specs.declared.Corner.{Corner as Node};
ghost use Rattle.layout.specs.Marks.{mark_words};
ghost use Rattle.layout.specs.Table.{word_at, visits_word};
ghost use Rattle.steps.specs.Operations.{operate};
ghost use Rattle.walk_run.specs.Runs.{Chained, Ready, WalkStarts, Acted, Performed, PerformedAll, Ended};

use answer::Refusal;
use grid::Corner;
use walk_step::{Spot, Walk};
use walk_table::{Record, zero, zero_from};

// A walk after an operation, and how many records changed.
#[derive(Clone, Copy)]
struct Turn {
    walk: Walk,
    changed: u32,
}

// A step. None if the table is full: then it is all zero.
fn step(t: &mut [u32], chain: &mut [u8], w: Walk, d: u8) -> Option<Turn>
    requires { Ready t.old chain.old w d × (d < 4) }
    ensures { (c : Node) (ds : List ℕ) → Chained c t.old chain.old ds w
        → Acted (length t.old) c t.new chain.new ds (operate ds d) result }
{
    chain[w.spot.steps] = d;
    let walk = walk_step::advance(t, w, d)?;
    let changed = walk_change::changed(t, walk.spot, d);
    Some(Turn { walk, changed })
}

// One operation: 4 takes the last surviving step back, any other is a step. A take-back is about to change as many records as its
// step did, which are counted while the step's words are there. None if the table is full: then it is all zero.
fn apply(t: &mut [u32], chain: &mut [u8], w: Walk, op: u8) -> Option<Turn>
    requires { Ready t.old chain.old w op }
    ensures { (c : Node) (ds : List ℕ) → Chained c t.old chain.old ds w
        → Acted (length t.old) c t.new chain.new ds (operate ds op) result }
{
    if op != 4 {
        return step(t, chain, w, op);
    }
    let d = chain[w.spot.steps - 1];
    let changed = walk_change::changed(t, w.spot, d);
    let walk = walk_step::withdraw(t, w, d);
    Some(Turn { walk, changed })
}

// The mark at place i: the nodes in use, the visits at the corner where the walk stands, and the records that changed.
fn mark(t: &[u32], marks: &mut [u32], w: Spot, i: usize, changed: u32)
    requires { (word_at w.node visits_word < length t.now) × (mark_words * i + 2 < length marks.old)
        × (w.nodes < 2 ^ 32) × (i < 2 ^ 32) }
    ensures { marks.new ≡ set (set (set marks.old (mark_words * i) w.nodes) (mark_words * i + 1)
        (get_or t.now (word_at w.node visits_word) 0)) (mark_words * i + 2) changed }
{
    let r = w.node;
    marks[Walk::MARK_WORDS * i] = w.nodes as u32;
    marks[Walk::MARK_WORDS * i + 1] = walk_table::word(t, r, Record::VISITS);
    marks[Walk::MARK_WORDS * i + 2] = changed;
}

// One operation, at place i: applied, and then marked. None if the table is full: then it is all zero.
fn perform(
    t: &mut [u32],
    marks: &mut [u32],
    chain: &mut [u8],
    w: Walk,
    op: u8,
    i: usize,
) -> Option<Walk>
    requires { Ready t.old chain.old w op × (mark_words * suc i ≤ length marks.old) × (i < 2 ^ 32) }
    ensures { (c : Node) (ds : List ℕ) → Chained c t.old chain.old ds w
        → Performed (length t.old) marks.old i c t.new marks.new chain.new
        ds (operate ds op) result }
{
    let x = apply(t, chain, w, op)?;
    mark(t, marks, x.walk.spot, i, x.changed);
    Some(x.walk)
}

// All operations, one after the other, in the table of the walk from start with no step, which stands at the node. Refuses the
// first for which the table is too small, as "no room": then the table is all zero.
fn perform_all(
    start: Corner,
    node: usize,
    ops: &[u8],
    t: &mut [u32],
    marks: &mut [u32],
    chain: &mut [u8],
) -> Result<Walk, Refusal>
    requires { WalkStarts start node ops.now t.old marks.old chain.old }
    ensures { PerformedAll (length t.old) start ops.now t.new marks.new
        chain.new result }
{
    let mut w = Walk::new(start, node);
    for (i, &op) in ops.iter().enumerate() {
        w = perform(t, marks, chain, w, op, i).ok_or(Refusal::NoRoom(i))?;
    }
    Ok(w)
}

// All operations, in the table of the walk from start with no step, which stands at the node. After the surviving steps the chain
// is cleared. Refuses the first for which the table is too small, as "no room": then all three buffers are cleared.
pub fn run(
    start: Corner,
    node: usize,
    ops: &[u8],
    t: &mut [u32],
    marks: &mut [u32],
    chain: &mut [u8],
) -> Result<Walk, Refusal>
    requires { WalkStarts start node ops.now t.old marks.old chain.old }
    ensures { Ended (length t.old) start ops.now t.new marks.new
        chain.new result }
{
    match perform_all(start, node, ops, t, marks, chain) {
        Ok(w) => {
            let n = w.spot.steps;
            zero_from(chain, n);
            Ok(w)
        }
        Err(r) => {
            zero(marks);
            zero_from(chain, 0);
            Err(r)
        }
    }
}
