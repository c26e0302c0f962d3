// The answer to one line.
#![tactic(auto)]

ghost use Rattle.std.specs.Prelude.{◌≡◌, ◌++◌, ◌∷◌, [], ◌+◌, ◌≤◌, length};
ghost use Rattle.lists.specs.Lists.{Below};
ghost use Rattle.grid.specs.Grid.{origin};
ghost use Rattle.hull_laws.specs.Chain.{hull_of};
ghost use Rattle.line_frame.specs.Sizes.{most_digits, hull_numbers, most_answer};
ghost use Rattle.line_frame.specs.Spelled.{facts_line, hull_line};
ghost use Rattle.line_frame.specs.Line.{line_answer};
ghost use Rattle.line_fields.specs.Put.{Wrote};
ghost use Rattle.line_walk.specs.Walk.{Clear};
ghost use Rattle.line_reply.specs.Reply.{Lent, HoldsCorners, LineIs};

use answer::Facts;
use grid::Corner;
use line_fields::hex::spell;
use line_frame::Frame;
use line_parts::{spell_facts, spell_numbers, spell_refusal};
use line_walk::walk_line;
use walk_step::Walk;
use walk_table::Record;

// The buffers in which lines are judged.
#[derive(Clone, Copy)]
pub struct Desk;

impl Desk {
    // records of the table
    const RECORDS: usize = 320;

    // its words
    pub const TABLE: usize = Desk::RECORDS * Record::WORDS;

    // words of the marks
    pub const MARKS: usize = Walk::MARK_WORDS * Frame::MOST_DIGITS;

    // hull corners at most, one more than the steps
    const CORNERS: usize = Frame::MOST_DIGITS + 1;

    // the numbers that list them
    pub const HULL: usize = 2 * Desk::CORNERS;

    // bytes that no answer line exceeds: 34 digits of facts, 4 of the hull count, 8 for each hull corner, the line feed, and one
    // to spare
    pub const MOST_ANSWER: usize = 40 + 8 * Desk::CORNERS;
}

// Lists the hull of the steps at the start of the buffer, which is long enough. Answers how many corners it has.
fn list_hull(steps: &[u8], hull: &mut [i32]) -> usize
    requires below { Below 4 steps.now × (length steps.now ≤ most_digits) }
    requires hull_len { length hull.old ≡ hull_numbers }
    ensures { HoldsCorners (hull_of origin steps.now) result hull.new }
{
    hull_call::list_short(Corner(0, 0), steps, hull).unwrap_or(0)
}

// Writes the facts of an accepted walk and the hull of its surviving steps.
fn write_accepted(f: Facts, steps: &[u8], hull: &mut [i32], out: &mut [u8], at: usize) -> usize
    requires below { Below 4 steps.now × (length steps.now ≤ most_digits) }
    requires hull_len { length hull.old ≡ hull_numbers }
    requires most_answer_in_bounds { at + most_answer ≤ length out.old }
    ensures { Wrote (facts_line f ++ hull_line (hull_of origin steps.now)) at
        out.old result out.new }
{
    let n = list_hull(steps, hull);
    let a = spell_facts(out, at, f);
    let b = spell(out, a, n, 4);
    spell_numbers(out, b, hull, 2 * n)
}

// Writes the answer to the line s from the place at on, without its line feed. Answers the place after it.
fn answer_line(
    s: &[u8],
    table: &mut [u32],
    marks: &mut [u32],
    hull: &mut [i32],
    out: &mut [u8],
    at: usize,
) -> usize
    requires lent { Lent table.old marks.old hull.old }
    requires most_answer_in_bounds { at + most_answer ≤ length out.old }
    ensures wrote { Wrote (line_answer s.now) at out.old result out.new }
    ensures clear { Clear table.new }
{
    let mut chain = [0u8; Frame::MOST_DIGITS];
    match walk_line(s, table, marks, &mut chain) {
        Ok(f) => write_accepted(f, &chain[..f.steps], hull, out, at),
        Err(r) => spell_refusal(out, at, r),
    }
}

// Writes the answer with its line feed.
pub fn tell(
    s: &[u8],
    table: &mut [u32],
    marks: &mut [u32],
    hull: &mut [i32],
    out: &mut [u8],
    at: usize,
) -> usize
    requires lent { Lent table.old marks.old hull.old }
    requires most_answer_in_bounds { at + most_answer ≤ length out.old }
    ensures wrote { Wrote (line_answer s.now ++ (10 ∷ [])) at out.old result out.new }
    ensures clear { Clear table.new }
{
    let end = answer_line(s, table, marks, hull, out, at);
    out[end] = 10;
    end + 1
}

// The answer to one line, at the start of the buffer; neither has a line feed. Answers how many bytes it has, or 0 if the buffer
// is shorter than 8,240 bytes, and leaves it as it was then.
pub fn reply(line: &[u8], out: &mut [u8]) -> usize
    ensures { LineIs line.now out.old result out.new }
{
    if out.len() < Desk::MOST_ANSWER {
        return 0;
    }
    let mut table = [0u32; Desk::TABLE];
    let mut marks = [0u32; Desk::MARKS];
    let mut hull = [0i32; Desk::HULL];
    answer_line(line, &mut table, &mut marks, &mut hull, out, 0)
}
