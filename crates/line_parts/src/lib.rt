// The frame that a line is and its digits, and the parts of an answer line as fields of digits.
#![tactic(auto)]

ghost use Rattle.std.specs.Prelude.{◌≡◌, true, ◌++◌, ◌+◌, ◌*◌, ◌<◌, ◌≤◌, length, take};
ghost use Rattle.line_frame.specs.Sizes.{head_digits, refused_digits, facts_digits};
ghost use Rattle.line_frame.specs.Hex.{all_hex, pair_at, hex_of};
ghost use Rattle.line_frame.specs.Line.{kind_named, frame_of, digits_of};
ghost use Rattle.line_frame.specs.Spelled.{refused_line, facts_line, numbers_line};
ghost use Rattle.line_fields.specs.Put.{put, Wrote};

use answer::{Facts, Refusal};
use line_fields::hex::{is_hex, spell, spell_signed, value};
use line_frame::{Frame, Kind};

// Whether every byte is a digit: all are looked at, so that many can be looked at together.
fn all_hex(s: &[u8]) -> bool
    ensures { result ≡ all_hex s.now }
{
    let mut all = true;
    for &b in s {
        all = all & is_hex(b);
    }
    all
}

// The number that the digits at i and after it spell.
fn pair(s: &[u8], i: usize) -> usize
    requires { (all_hex s.now ≡ true) × (i + 1 < length s.now) }
    ensures { (result ≡ pair_at s.now i) × (result < 256) }
{
    usize::from(value(s[i])) * 16 + usize::from(value(s[i + 1]))
}

// The kind with this number, which is 0 or 1.
fn named(k: usize) -> Kind
    ensures { result ≡ kind_named k }
{
    if k == 0 {
        return Kind::Operations;
    }
    Kind::Turns
}

// The kind of the frame that the line is, two digits, and how many operations or turns it has, four digits. None: the line is not
// a frame.
pub fn read(s: &[u8]) -> Option<(Kind, usize)>
    ensures { result ≡ frame_of s.now }
{
    if s.len() < Frame::HEAD {
        return None;
    }
    if Frame::MOST_LINE < s.len() {
        return None;
    }
    if !all_hex(s) {
        return None;
    }
    let k = pair(s, 0);
    if 1 < k {
        return None;
    }
    let n = pair(s, 2) * 256 + pair(s, 4);
    if s.len() - Frame::HEAD != n {
        return None;
    }
    Some((named(k), n))
}

// Writes the values of the frame's digits to the start of the buffer.
pub fn copy_digits(s: &[u8], buf: &mut [u8])
    requires s_value { all_hex s.now ≡ true }
    requires head_digits_in_bounds { (head_digits ≤ length s.now) × (length s.now ≤ head_digits + length buf.old) }
    ensures { buf.new ≡ put (digits_of s.now) 0 buf.old }
{
    let n = s.len() - Frame::HEAD;
    for i in 0..n {
        buf[i] = value(s[Frame::HEAD + i]);
    }
}

// Writes two fields: n digits of v, then m digits of w.
fn spell_two(out: &mut [u8], at: usize, v: usize, n: usize, w: usize, m: usize) -> usize
    requires { at + n + m ≤ length out.old }
    ensures { Wrote (hex_of n v ++ hex_of m w) at out.old result out.new }
{
    let next = spell(out, at, v, n);
    spell(out, next, w, m)
}

// Writes the line of a refusal, without its line feed.
pub fn spell_refusal(out: &mut [u8], at: usize, r: Refusal) -> usize
    requires { at + refused_digits ≤ length out.old }
    ensures { Wrote (refused_line r) at out.old result out.new }
{
    let number = answer::refusal_number(r);
    let place = answer::refusal_place(r);
    spell_two(out, at, 0x80 + number, 2, place, 8)
}

// Writes the facts of an accepted walk.
pub fn spell_facts(out: &mut [u8], at: usize, f: Facts) -> usize
    requires { at + facts_digits ≤ length out.old }
    ensures { Wrote (facts_line f) at out.old result out.new }
{
    let a = spell_two(out, at, answer::verdict_number(f.verdict), 2, f.steps, 4);
    let b = spell_two(out, a, f.nodes, 8, f.corners, 4);
    let c = spell_two(out, b, f.j, 4, f.k, 4);
    spell_signed(out, c, f.area, 8)
}

// Writes the first n numbers, 4 digits each.
pub fn spell_numbers(out: &mut [u8], at: usize, xs: &[i32], n: usize) -> usize
    requires { (n ≤ length xs.now) × (at + 4 * n ≤ length out.old) }
    ensures { Wrote (numbers_line (take n xs.now)) at out.old result out.new }
{
    let mut next = at;
    for &x in &xs[..n] {
        next = spell_signed(out, next, x, 4);
    }
    next
}
