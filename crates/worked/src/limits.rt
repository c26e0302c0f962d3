// Steps east, to every limit and past it.
ghost use Rattle.std.specs.Prelude.{suc, ◌*◌, ◌≤◌};
ghost use Rattle.answer.specs.Limits.{most_input, most_steps};
ghost use Rattle.layout.specs.Marks.{mark_words};
ghost use Rattle.layout.specs.Table.{width};

use crate::{show, walks};
use answer::Limits;
use grid::Corner;
use std::io;
use std::io::Write;
use walk_step::Walk;
use walk_table::Record;

// The corners of the longest walk, and one byte more than an input may have.
const CORNERS: usize = Limits::MOST_STEPS + 1;

const BYTES: usize = Limits::MOST_INPUT + 1;

// The last record of a table, or all of it.
fn last<W: Write>(out: &mut W, table: &[u32]) -> io::Result<()> {
    let n = table.len();
    if n <= 2 * Record::WORDS {
        return show::words(out, "  table", table);
    }
    show::words(out, "  last record", &table[n - Record::WORDS..])
}

// The last word and byte.
fn ends<W: Write>(out: &mut W, marks: &[u32], chain: &[u8]) -> io::Result<()> {
    let n = marks.len();
    if 1 <= n {
        show::words(out, "  last mark", &marks[n - 1..])?;
    }
    let m = chain.len();
    if 1 <= m {
        show::bytes(out, "  last step", &chain[m - 1..])?;
    }
    Ok(())
}

// Walks the operations, and shows the answer and the ends of the buffers; then their hull and turns.
fn walked<W: Write>(
    out: &mut W,
    ops: &[u8],
    table: &mut [u32],
    marks: &mut [u32],
    chain: &mut [u8],
) -> io::Result<()> {
    show::answer(
        out,
        walk_call::follow(Corner(0, 0), ops, table, marks, chain),
    )?;
    last(out, table)?;
    ends(out, marks, chain)?;
    let mut hull = [7i32; 5];
    walks::hulled(out, ops, &mut hull)?;
    show::judged(out, turns::turns_of(ops, chain))?;
    show::judged(out, turns::steps_of(ops, chain))
}

// n steps east, with buffers of these lengths that held 7 everywhere.
fn east<W: Write>(out: &mut W, n: usize, words: usize, marks: usize, chain: usize) -> io::Result<()>
    requires n_bound { (n ≤ suc most_input) × (words ≤ suc most_steps * width) }
    requires marks_bound { (marks ≤ suc most_steps * mark_words) × (chain ≤ suc most_steps) }
{
    writeln!(out, "east {n}")?;
    let ops = [0u8; BYTES];
    let mut t = [7u32; CORNERS * Record::WORDS];
    let mut m = [7u32; CORNERS * Walk::MARK_WORDS];
    let mut c = [7u8; CORNERS];
    walked(
        out,
        &ops[..n],
        &mut t[..words],
        &mut m[..marks],
        &mut c[..chain],
    )
}

// No record, a word too many and too few, a mark too few, a byte too many, a table that is too small; then the limits of length.
pub(crate) fn all<W: Write>(out: &mut W) -> io::Result<()> {
    east(out, 3, 0, 3 * Walk::MARK_WORDS, 3)?;
    east(out, 3, Record::WORDS + 1, 3 * Walk::MARK_WORDS, 3)?;
    east(out, 3, Record::WORDS - 1, 3 * Walk::MARK_WORDS - 1, 3)?;
    east(out, 3, 2 * Record::WORDS, 3 * Walk::MARK_WORDS - 1, 3)?;
    east(out, 3, 2 * Record::WORDS, 3 * Walk::MARK_WORDS, 4)?;
    east(out, 3, 2 * Record::WORDS, 3 * Walk::MARK_WORDS, 3)?;
    east(
        out,
        Limits::MOST_STEPS,
        CORNERS * Record::WORDS,
        Limits::MOST_STEPS * Walk::MARK_WORDS,
        Limits::MOST_STEPS,
    )?;
    east(
        out,
        CORNERS,
        Record::WORDS,
        CORNERS * Walk::MARK_WORDS,
        CORNERS,
    )?;
    east(out, BYTES, Record::WORDS, Walk::MARK_WORDS, 1)
}
