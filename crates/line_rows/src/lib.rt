// What the rows program writes for a line.
#![tactic(auto)]

ghost use Rattle.std.specs.Prelude.{◌≡◌, ◌∷◌, [], ◌+◌, ◌*◌, ◌<◌, ◌≤◌, length};
ghost use Rattle.grid.specs.Grid.{origin};
ghost use Rattle.room.specs.Room.{as_room_judged};
ghost use Rattle.line_frame.specs.Sizes.{most_digits, hull_numbers, marks_words};
ghost use Rattle.line_fields.specs.Put.{Wrote};
ghost use Rattle.line_walk.specs.Walk.{Clear};
ghost use Rattle.line_room.specs.Told.{refused_told, room_told, rows_told, most_rows};
ghost use Rattle.line_rows.specs.Numbers.{three_told, threes_told};

use answer::Refusal;
use grid::Corner;
use line_frame::Frame;
use line_parts::{spell_numbers, spell_refusal};
use line_walk::walk_line;

// Bytes that no line gives more of: 12 digits and a line feed for each of at most half as many spans as a frame has digits.
pub const MOST_ROWS: usize = 13 * (Frame::MOST_DIGITS / 2);

// Writes a line feed at the place.
fn feed(out: &mut [u8], at: usize) -> usize
    requires { at < length out.old }
    ensures { Wrote (10 ∷ []) at out.old result out.new }
{
    out[at] = 10;
    at + 1
}

// Writes the line of a refusal.
fn tell_refusal(out: &mut [u8], at: usize, r: Refusal) -> usize
    requires { at + most_rows ≤ length out.old }
    ensures { Wrote (refused_told r) at out.old result out.new }
{
    let end = spell_refusal(out, at, r);
    feed(out, end)
}

// Writes the first three numbers as a line.
fn tell_three(out: &mut [u8], at: usize, xs: &[i32]) -> usize
    requires { (3 ≤ length xs.now) × (at + 13 ≤ length out.old) }
    ensures { Wrote (three_told xs.now) at out.old result out.new }
{
    let end = spell_numbers(out, at, xs, 3);
    feed(out, end)
}

// Writes the first numbers in n lines of three.
fn tell_threes(out: &mut [u8], at: usize, xs: &[i32], n: usize) -> usize
    requires { (3 * n ≤ length xs.now) × (at + 13 * n ≤ length out.old) }
    ensures { Wrote (threes_told n xs.now) at out.old result out.new }
{
    let mut next = at;
    for i in 0..n {
        next = tell_three(out, next, &xs[3 * i..]);
    }
    next
}

// Writes the spans of these steps, for which numbers are lent, if they are a room.
fn tell_room(steps: &[u8], numbers: &mut [i32], out: &mut [u8], at: usize) -> usize
    requires steps_len_bound { (length steps.now ≤ most_digits) × (length numbers.old ≡ hull_numbers) }
    requires most_rows_in_bounds { at + most_rows ≤ length out.old }
    ensures { Wrote (room_told (as_room_judged origin steps.now) steps.now) at
        out.old result out.new }
{
    match row_call::list(Corner(0, 0), steps, numbers) {
        Ok(n) => tell_threes(out, at, numbers, n),
        Err(r) => tell_refusal(out, at, r),
    }
}

// Writes what is written for the line s from the place at on. Answers the place after it.
pub fn tell(
    s: &[u8],
    table: &mut [u32],
    marks: &mut [u32],
    numbers: &mut [i32],
    out: &mut [u8],
    at: usize,
) -> usize
    requires clear { Clear table.old × (length marks.old ≡ marks_words) × (length numbers.old ≡ hull_numbers) }
    requires most_rows_in_bounds { at + most_rows ≤ length out.old }
    ensures wrote { Wrote (rows_told s.now) at out.old result out.new }
    ensures clear_2 { Clear table.new }
{
    let mut chain = [0u8; Frame::MOST_DIGITS];
    match walk_line(s, table, marks, &mut chain) {
        Ok(f) => tell_room(&chain[..f.steps], numbers, out, at),
        Err(r) => tell_refusal(out, at, r),
    }
}
