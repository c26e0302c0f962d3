// The walk: any operations, judged in a lent table.
#![tactic(auto)]

ghost use Rattle.std.specs.Prelude.{◌≡◌, length, Ok, replicate};
ghost use Rattle.walk.specs.Walk.{WalkIs};
ghost use Rattle.walk_input.specs.Input.{input_judged};
ghost use Rattle.walk_run.specs.Runs.{WalkStarts};
ghost use Rattle.walk_call.specs.Followed.{Followed};

use answer::{Facts, Refusal};
use grid::Corner;

// Marks and chain zero.
fn clear(marks: &mut [u32], chain: &mut [u8])
    ensures marks { marks.new ≡ replicate (length marks.old) 0 }
    ensures chain { chain.new ≡ replicate (length chain.old) 0 }
{
    walk_table::zero(marks);
    walk_table::zero_from(chain, 0);
}

// Follows operations that have no fault, in the table of the walk from start with no step, which stands at the node.
fn go_on(
    start: Corner,
    node: usize,
    ops: &[u8],
    t: &mut [u32],
    marks: &mut [u32],
    chain: &mut [u8],
) -> Result<Facts, Refusal>
    requires { WalkStarts start node ops.now t.old marks.old chain.old }
    ensures { Followed start ops.now t.old marks.old chain.old result
        t.new marks.new chain.new }
{
    let w = walk_run::run(start, node, ops, t, marks, chain)?;
    Ok(walk_facts::facts(start, chain, w))
}

// Follows operations that have no fault from start, in a table of zeros.
fn set_out(
    start: Corner,
    ops: &[u8],
    t: &mut [u32],
    marks: &mut [u32],
    chain: &mut [u8],
) -> Result<Facts, Refusal>
    requires chain_value { input_judged start ops.now (length t.old) (length marks.old) (length chain.old) ≡ Ok tt }
    requires t_value { t.old ≡ replicate (length t.old) 0 }
    ensures { Followed start ops.now t.old marks.old chain.old result
        t.new marks.new chain.new }
{
    let Some(at) = walk_plant::plant(t, start) else {
        clear(marks, chain);
        return Err(Refusal::NoRoom(0));
    };
    go_on(start, at, ops, t, marks, chain)
}

// Follows the operations from start. If they are refused, the buffers are untouched, but all zero if the table is too small.
// Otherwise the table t holds the records of the nodes in use, then zeros; the marks, three words for each operation, hold the
// nodes in use and the visits at the corner stood on after it, and how many records it changed; and the chain holds the surviving
// steps, then zeros.
pub fn follow(
    start: Corner,
    ops: &[u8],
    t: &mut [u32],
    marks: &mut [u32],
    chain: &mut [u8],
) -> Result<Facts, Refusal>
    ensures { WalkIs start ops.now t.old marks.old chain.old result t.new
        marks.new chain.new }
{
    walk_input::input(start, ops, t.len(), marks.len(), chain.len())?;
    walk_table::zero(t);
    set_out(start, ops, t, marks, chain)
}

// The same if the table is all zero, and need not be cleared.
pub fn follow_clear(
    start: Corner,
    ops: &[u8],
    t: &mut [u32],
    marks: &mut [u32],
    chain: &mut [u8],
) -> Result<Facts, Refusal>
    requires { t.old ≡ replicate (length t.old) 0 }
    ensures { WalkIs start ops.now t.old marks.old chain.old result t.new
        marks.new chain.new }
{
    walk_input::input(start, ops, t.len(), marks.len(), chain.len())?;
    set_out(start, ops, t, marks, chain)
}
