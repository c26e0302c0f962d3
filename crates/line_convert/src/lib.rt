// One line, converted: a call; and what the converter writes for a line that comes in parts.
#![tactic(auto)]

ghost use Rattle.std.specs.Prelude.{◌≡◌, true, cond, ◌++◌, ◌∷◌, [], ◌+◌, ◌≤◌, length};
ghost use Rattle.lists.specs.Lists.{Below};
ghost use Rattle.steps.specs.Turns.{steps_of, turns_judged, written_if};
ghost use Rattle.line_frame.specs.Sizes.{head_digits, most_digits, most_held};
ghost use Rattle.line_frame.specs.Hex.{all_hex};
ghost use Rattle.line_frame.specs.Converted.{letters_of, steps_frame, kind_converted, converted_line};
ghost use Rattle.line_frame.specs.declared.Kind.TheVariants as kinds;
ghost use Rattle.line_fields.specs.Put.{Wrote};
ghost use Rattle.line_stream.specs.Stream.{is_long};
ghost use Rattle.line_convert.specs.Convert.{ConvertedIs, names_turns};

use line_fields::hex::{letter, spell};
use line_frame::{Frame, Kind};
use line_parts::{copy_digits, read};

// Writes the bytes s from the place at on. Answers the place after them.
pub fn copy(s: &[u8], out: &mut [u8], at: usize) -> usize
    requires { at + length s.now ≤ length out.old }
    ensures { Wrote s.now at out.old result out.new }
{
    // a loop: `copy_from_slice` calls the C library, whose first call takes more stack than the header says
    for i in 0..s.len() {
        out[at + i] = s[i];
    }
    at + s.len()
}

// Writes the steps, one digit each.
fn spell_steps(steps: &[u8], out: &mut [u8], at: usize) -> usize
    requires below { Below 4 steps.now }
    requires steps_in_bounds { at + length steps.now ≤ length out.old }
    ensures { Wrote (letters_of steps.now) at out.old result out.new }
{
    for i in 0..steps.len() {
        out[at + i] = letter(steps[i]);
    }
    at + steps.len()
}

// Writes the frame of kind 00 with these steps.
fn spell_frame(steps: &[u8], out: &mut [u8], at: usize) -> usize
    requires below { Below 4 steps.now }
    requires steps_in_bounds { at + head_digits + length steps.now ≤ length out.old }
    ensures { Wrote (steps_frame steps.now) at out.old result out.new }
{
    let a = spell(out, at, 0, 2);
    let b = spell(out, a, steps.len(), 4);
    spell_steps(steps, out, b)
}

// Writes the frame with the steps of the turns of the frame s into the lent buffer; or s, if a digit is not a turn.
fn convert_turns(s: &[u8], turns: &[u8], steps: &mut [u8], out: &mut [u8], at: usize) -> usize
    requires s_len { (length s.now ≡ head_digits + length turns.now) × (length steps.old ≡ length turns.now) }
    requires s_in_bounds { at + length s.now ≤ length out.old }
    ensures { Wrote (written_if (turns_judged turns.now (length turns.now))
        (steps_frame (steps_of turns.now)) s.now) at out.old result out.new }
{
    match turns::steps_of(turns, steps) {
        Ok(()) => spell_frame(steps, out, at),
        Err(_) => copy(s, out, at),
    }
}

// Writes a frame of kind 01 with n digits, converted.
fn convert_frame(s: &[u8], n: usize, out: &mut [u8], at: usize) -> usize
    requires s_value { all_hex s.now ≡ true }
    requires n_le_most_digits { (n ≤ most_digits) × (length s.now ≡ head_digits + n) }
    requires s_in_bounds { at + length s.now ≤ length out.old }
    ensures { Wrote (kind_converted kinds.Turns s.now) at out.old result out.new }
{
    let mut turns = [0u8; Frame::MOST_DIGITS];
    copy_digits(s, &mut turns);
    let mut steps = [0u8; Frame::MOST_DIGITS];
    convert_turns(s, &turns[..n], &mut steps[..n], out, at)
}

// Writes a frame of this kind with n digits, converted.
fn convert_kind(s: &[u8], kind: Kind, n: usize, out: &mut [u8], at: usize) -> usize
    requires s_value { all_hex s.now ≡ true }
    requires n_le_most_digits { (n ≤ most_digits) × (length s.now ≡ head_digits + n) }
    requires s_in_bounds { at + length s.now ≤ length out.old }
    ensures { Wrote (kind_converted kind s.now) at out.old result out.new }
{
    match kind {
        Kind::Operations => copy(s, out, at),
        Kind::Turns => convert_frame(s, n, out, at),
    }
}

// Whether the line begins with the digits of kind 01.
fn names_turns(s: &[u8]) -> bool
    ensures { result ≡ names_turns s.now }
{
    matches!(s, [b'0', b'1', ..])
}

// Writes the line s, converted, from the place at on. Answers the place after it. A line of another kind stays, so it need not be
// read.
fn convert_line(s: &[u8], out: &mut [u8], at: usize) -> usize
    requires { at + length s.now ≤ length out.old }
    ensures { Wrote (converted_line s.now) at out.old result out.new }
{
    if !names_turns(s) {
        return copy(s, out, at);
    }
    match read(s) {
        Some((kind, n)) => convert_kind(s, kind, n, out, at),
        None => copy(s, out, at),
    }
}

// The line, converted, at the start of the buffer; neither has a line feed. Answers how many bytes it has, as many as the line,
// or 0 if the buffer is shorter, and leaves it as it was then.
pub fn convert(line: &[u8], out: &mut [u8]) -> usize
    ensures { ConvertedIs line.now out.old result out.new }
{
    if out.len() < line.len() {
        return 0;
    }
    convert_line(line, out, 0)
}

// What is written of a line that goes on, if h is held of it and then r comes: the bytes that are new as soon as it is longer
// than a frame.
pub fn pass_on(h: &[u8], r: &[u8], out: &mut [u8], at: usize) -> usize
    requires { at + length h.now + length r.now ≤ length out.old }
    ensures { Wrote (cond (is_long h.now) r.now
        (cond (is_long (h.now ++ r.now)) (h.now ++ r.now) [])) at
        out.old result out.new }
{
    if Frame::MOST_LINE < h.len() {
        return copy(r, out, at);
    }
    if h.len() + r.len() <= Frame::MOST_LINE {
        return at;
    }
    let next = copy(h, out, at);
    copy(r, out, next)
}

// What is written at the end of a line, if h was kept of it: the line converted, or nothing more if it was passed on.
pub fn end_line(h: &[u8], out: &mut [u8], at: usize) -> usize
    requires { (length h.now ≤ most_held) × (at + most_held ≤ length out.old) }
    ensures { Wrote (cond (is_long h.now) [] (converted_line h.now)) at
        out.old result out.new }
{
    if Frame::MOST_LINE < h.len() {
        return at;
    }
    convert_line(h, out, at)
}

// The same, with its line feed.
pub fn end_fed_line(h: &[u8], out: &mut [u8], at: usize) -> usize
    requires { (length h.now ≤ most_held) × (at + most_held ≤ length out.old) }
    ensures { Wrote (cond (is_long h.now) [] (converted_line h.now) ++ (10 ∷ [])) at
        out.old result out.new }
{
    let end = end_line(h, out, at);
    out[end] = 10;
    end + 1
}
