// Walks in a small table, one on each line: a letter for the records of the table, a for 1 to l for 12, then the operations.
ghost use Rattle.std.specs.Prelude.{◌≤◌, length};

use crate::show;
use grid::Corner;
use line_stream::line_end;
use std::io;
use std::io::Write;
use walk_step::Walk;
use walk_table::Record;

// Walks the operations, and shows the answer and all of the buffers.
fn shown<W: Write>(
    out: &mut W,
    ops: &[u8],
    table: &mut [u32],
    marks: &mut [u32],
    chain: &mut [u8],
) -> io::Result<()> {
    show::answer(
        out,
        walk_call::follow(Corner(0, 0), ops, table, marks, chain),
    )?;
    show::words(out, "  table", table)?;
    show::words(out, "  marks", marks)?;
    show::bytes(out, "  chain", chain)
}

// The hull of the operations, if they are steps.
pub(crate) fn hulled<W: Write>(out: &mut W, ops: &[u8], hull: &mut [i32]) -> io::Result<()> {
    show::counted(out, hull_call::list(Corner(0, 0), ops, hull))?;
    show::numbers(out, "  hull", hull)
}

// The turns of the operations, if they are steps, and the steps of these turns.
pub(crate) fn turned<W: Write>(
    out: &mut W,
    ops: &[u8],
    turns: &mut [u8],
    steps: &mut [u8],
) -> io::Result<()> {
    show::judged(out, turns::turns_of(ops, turns))?;
    show::bytes(out, "  turns", turns)?;
    show::judged(out, turns::steps_of(turns, steps))?;
    show::bytes(out, "  steps", steps)
}

// All calls, with buffers that held 7 everywhere.
fn run<W: Write>(out: &mut W, ops: &[u8], records: usize) -> io::Result<()>
    requires { (length ops.now ≤ 32) × (records ≤ 12) }
{
    let n = ops.len();
    let mut table = [7u32; 12 * Record::WORDS];
    let mut marks = [7u32; 32 * Walk::MARK_WORDS];
    let mut chain = [7u8; 32];
    shown(
        out,
        ops,
        &mut table[..Record::WORDS * records],
        &mut marks[..Walk::MARK_WORDS * n],
        &mut chain[..n],
    )?;
    let mut hull = [7i32; 24];
    hulled(out, ops, &mut hull[..2 * records])?;
    let mut turns = [7u8; 32];
    let mut steps = [7u8; 32];
    turned(out, ops, &mut turns[..n], &mut steps[..n])
}

// The digits' values: 0 to 9 are 48 to 57.
fn read(digits: &[u8], ops: &mut [u8])
    requires { length digits.now ≤ length ops.old }
{
    for (i, digit) in digits.iter().enumerate() {
        ops[i] = *digit % 16;
    }
}

fn one<W: Write>(out: &mut W, line: &[u8]) -> io::Result<()> {
    out.write_all(line)?;
    writeln!(out)?;
    if line.len() < 1 {
        return Ok(());
    }
    let n = line.len() - 1;
    let records = (line[0] % 32) as usize;
    if n > 32 {
        return Ok(());
    }
    if records > 12 {
        return Ok(());
    }
    let mut ops = [0u8; 32];
    read(&line[1..], &mut ops);
    run(out, &ops[..n], records)
}

// Every line.
pub(crate) fn each<W: Write>(out: &mut W, s: &[u8]) -> io::Result<()> {
    let mut at = 0;
    while at < s.len() {
        let end = at + line_end(&s[at..]);
        one(out, &s[at..end])?;
        at = end + 1;
    }
    Ok(())
}
