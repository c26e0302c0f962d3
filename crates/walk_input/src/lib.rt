// The judgement of a walk's input, before anything is written: refusals 1 to 6 and 10.
#![tactic(auto)]

ghost use Rattle.std.specs.Prelude.{◌&&◌, ◌≡◌, ◌%◌, ◌/◌, ◌^◌, ◌<◌, eqb, leb};
ghost use Rattle.steps.specs.Operations.{fault_of, operations_judged, after, Fine};
ghost use Rattle.walk_input.specs.Input.{input_judged};

use answer::{Refusal, start_fits};
use grid::Corner;
use walk_step::Walk;
use walk_table::Record;

// What is wrong with the operation at place i, if this many steps survive.
pub fn fault(op: u8, steps: usize, i: usize) -> Result<(), Refusal>
    ensures { result ≡ fault_of i steps op }
{
    match op {
        0..=3 if steps >= Walk::MOST_STEPS => Err(Refusal::TooLong(i)),
        4 if steps == 0 => Err(Refusal::NothingToTake(i)),
        0..=4 => Ok(()),
        _ => Err(Refusal::BadDigit(i)),
    }
}

// How many steps survive an operation that has no fault.
pub fn survive(op: u8, steps: usize) -> usize
    requires fine { Fine steps op }
    requires steps_bound { steps < 2 ^ 63 }
    ensures { result ≡ after steps op }
{
    if op == 4 { steps - 1 } else { steps + 1 }
}

// The first fault of the operations, one after the other.
fn first_fault(ops: &[u8]) -> Result<(), Refusal>
    ensures { result ≡ operations_judged 0 0 ops.now }
{
    let mut steps = 0;
    for (i, &op) in ops.iter().enumerate() {
        fault(op, steps, i)?;
        steps = survive(op, steps);
    }
    Ok(())
}

// The first fault of the operations. If all are steps, and not too many, there is none.
fn operations(ops: &[u8]) -> Result<(), Refusal>
    ensures { result ≡ operations_judged 0 0 ops.now }
{
    if ops.len() > Walk::MOST_STEPS || order::highest(ops) > 3 {
        return first_fault(ops);
    }
    Ok(())
}

// Whether the words are those of 1 record to `most`, of `each` words.
pub fn table(words: usize, each: usize, most: usize) -> bool
    requires { 0 < each }
    ensures { result ≡ eqb (words % each) 0 && leb 1 (words / each) && leb (words / each) most }
{
    words % each == 0 && (1..=most).contains(&(words / each))
}

// Refusals 1, 2, 3 and 10, then 4, 5 and 6 at the first faulty place.
pub fn input(
    start: Corner,
    ops: &[u8],
    words: usize,
    marks: usize,
    chain: usize,
) -> Result<(), Refusal>
    ensures { result ≡ input_judged start ops.now words marks chain }
{
    let n = ops.len();
    if n > Walk::MOST_INPUT {
        return Err(Refusal::TooMany);
    }
    if !table(words, Record::WORDS, Walk::MOST_RECORDS) {
        return Err(Refusal::Table);
    }
    if marks != Walk::MARK_WORDS * n || chain != n {
        return Err(Refusal::ResultRoom);
    }
    if !start_fits(start) {
        return Err(Refusal::StartRange);
    }
    operations(ops)
}
