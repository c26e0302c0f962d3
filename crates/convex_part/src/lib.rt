// Whether a part of a room is convex: the depths of its columns, the chain over them, and a test for each column.
#![tactic(auto)]

ghost use Rattle.std.specs.Prelude.{◌≡◌, ◌+◌, ◌*◌, ◌-◌, ◌%◌, ◌<◌, ◌≤◌, ltb, length, take};
ghost use Rattle.convex.specs.Parts.{turned_by};
ghost use Rattle.convex_laws.specs.Level.{depths_from, are_letters, level, levels, level_along, level_of, convex_part};
ghost use Rattle.convex_part.specs.Steps.{over, under, Rises, Digits, PartStore};

use hull_chains::scan;

// Whether one step above depth c, w columns right of p, lies above the straight line from depth p to depth b, u columns right of
// it.
#[tactic(auto, using(crate::proofs::ProductLaws::times_lt))]
fn above(u: usize, w: usize, p: u16, b: u16, c: u16) -> bool
    requires { (u < 65536) × (w < 65536) }
    ensures { result ≡ ltb (u * c + w * p) (w * b + u * p + u) }
{
    let p = usize::from(p);
    u * usize::from(c) + w * p < w * usize::from(b) + u * p + u
}

// Whether the grid point next above column c lies above the straight line from column p to column b.
fn stands(ys: &[u16], p: usize, b: usize, c: usize) -> bool
    requires { (p < b) × (p < c) × (b < length ys.now) × (c < length ys.now) × (length ys.now ≤ 65536) }
    ensures { result ≡ level ys.now p b c }
{
    above(b - p, c - p, ys[p], ys[b], ys[c])
}

// The same for all columns between the two.
fn edge(ys: &[u16], p: usize, b: usize) -> bool
    requires { (p < b) × (b < length ys.now) × (length ys.now ≤ 65536) }
    ensures { result ≡ levels ys.now p b (p + 1) (b - (p + 1)) }
{
    for c in p + 1..b {
        if !stands(ys, p, b, c) {
            return false;
        }
    }
    true
}

// The same for all neighbours of the chain s.
fn along(ys: &[u16], s: &[u16]) -> bool
    requires { Rises (length ys.now) s.now × (length ys.now ≤ 65536) }
    ensures { result ≡ level_along ys.now s.now }
{
    for q in 1..s.len() {
        let p = usize::from(s[q - 1]);
        let b = usize::from(s[q]);
        if !edge(ys, p, b) {
            return false;
        }
    }
    true
}

// A step turned by some quarter turns.
fn letter(d: u8, turn: u8) -> u8
    requires { (d < 4) × (turn < 4) }
    ensures { result ≡ (d + turn) % 4 }
{
    (d + turn) % 4
}

// Whether a part, turned, has only the letters 0 and 1.
fn plain(part: &[u8], turn: u8) -> bool
    requires { Digits part.now × (turn < 4) }
    ensures { result ≡ are_letters (turned_by turn part.now) }
{
    for &d in part {
        if letter(d, turn) > 1 {
            return false;
        }
    }
    true
}

// The column after a letter.
fn column(k: usize, d: u8) -> usize
    requires { k < 65536 }
    ensures { result ≡ over k d }
{
    k + usize::from(d == 0)
}

// The depth after a letter.
fn depth(y: u16, d: u8) -> u16
    requires { 0 < y }
    ensures { result ≡ under y d }
{
    y - u16::from(d != 0)
}

// Writes the depths of the columns of a part, turned, and answers how many columns it has.
fn dig(part: &[u8], turn: u8, ys: &mut [u16]) -> usize
    requires { Digits part.now × (turn < 4) × (length part.now < length ys.old) × (length ys.old ≤ 65536) }
    ensures { (take result ys.new ≡ depths_from (length part.now) (turned_by turn part.now))
        × (result ≤ length part.now + 1) }
{
    let mut y = part.len() as u16;
    let mut k = 0;
    for &step in part {
        ys[k] = y;
        let d = letter(step, turn);
        k = column(k, d);
        y = depth(y, d);
    }
    ys[k] = y;
    k + 1
}

// Whether the columns pass the test on their chain. The working store is lent.
fn columns(ys: &[u16], s: &mut [u16]) -> bool
    requires { (length ys.now ≤ length s.old) × (length ys.now ≤ 65536) }
    ensures { result ≡ level_of ys.now }
{
    let a = scan(ys, s);
    along(ys, &s[a..])
}

// Whether a part, turned back to the first, is convex. The working store is lent.
pub fn judge(part: &[u8], turn: u8, ys: &mut [u16], s: &mut [u16]) -> bool
    requires { Digits part.now × (turn < 4) × PartStore (length part.now) ys.old s.old }
    ensures { result ≡ convex_part (turned_by turn part.now) }
{
    if !plain(part, turn) {
        return false;
    }
    let n = dig(part, turn, ys);
    columns(&ys[..n], s)
}
