// The walk of a line, in lent buffers.
#![tactic(auto)]

ghost use Rattle.std.specs.Prelude.{◌≡◌, true, ◌+◌, ◌≤◌, length};
ghost use Rattle.line_frame.specs.Sizes.{head_digits, most_digits};
ghost use Rattle.line_frame.specs.Hex.{all_hex};
ghost use Rattle.line_frame.specs.Line.{digits_of, kind_walked, line_walked};
ghost use Rattle.line_frame.specs.declared.Kind.TheVariants as kinds;
ghost use Rattle.line_walk.specs.Walk.{Clear, records_left, WalkBuffers, WalkedBy};

use answer::{Facts, Refusal};
use grid::Corner;
use line_frame::{Frame, Kind};
use line_parts::{copy_digits, read};
use walk_step::Walk;
use walk_table::{Record, zero};

// How many records a walk has left in the table.
fn records(a: Result<Facts, Refusal>) -> usize
    ensures { result ≡ records_left a }
{
    a.map_or(0, |f| f.nodes)
}

// Walks the n operations of a frame, and clears the records that this took.
fn walk_digits(
    s: &[u8],
    n: usize,
    table: &mut [u32],
    marks: &mut [u32],
    chain: &mut [u8],
) -> Result<Facts, Refusal>
    requires s_value { all_hex s.now ≡ true }
    requires n_le_most_digits { (n ≤ most_digits) × (length s.now ≡ head_digits + n) }
    requires walk_buffers { WalkBuffers table.old marks.old chain.old }
    ensures walked_by { WalkedBy (kind_walked kinds.Operations (digits_of s.now)) (digits_of s.now)
        result chain.new }
    ensures clear { Clear table.new }
{
    let mut digits = [0u8; Frame::MOST_DIGITS];
    copy_digits(s, &mut digits);
    let a = walk_call::follow_clear(
        Corner(0, 0),
        &digits[..n],
        table,
        &mut marks[..Walk::MARK_WORDS * n],
        &mut chain[..n],
    );
    let used = Record::WORDS * records(a);
    zero(&mut table[..used]);
    a
}

// Walks the line s in a table of zeros, and leaves it so. The chain of an accepted walk begins with its surviving steps.
pub fn walk_line(
    s: &[u8],
    table: &mut [u32],
    marks: &mut [u32],
    chain: &mut [u8],
) -> Result<Facts, Refusal>
    requires { WalkBuffers table.old marks.old chain.old }
    ensures walked_by { WalkedBy (line_walked s.now) (digits_of s.now) result chain.new }
    ensures clear { Clear table.new }
{
    let (kind, n) = read(s).ok_or(Refusal::BadLine)?;
    match kind {
        Kind::Operations => walk_digits(s, n, table, marks, chain),
        Kind::Turns => Err(Refusal::RetiredKind),
    }
}
