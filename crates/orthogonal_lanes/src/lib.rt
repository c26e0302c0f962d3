// The least column of each row of blocks, and of each row of the hull. A list of lanes has a column for each row. Columns are
// counted from west in one list and from east in another, so that the least of them is the end of the row on that side.
#![tactic(auto)]

ghost use Rattle.std.specs.Prelude.{◌≡◌, ℕ, ◌+◌, ◌*◌, ◌-◌, ◌/◌, ◌<◌, ◌≤◌, ltb, length, get_or};
ghost use Rattle.lists.specs.Lists.{tally, Below};
ghost use Rattle.hull_laws.specs.Lowest.{sink, sinks};
ghost use Rattle.room_thread_laws.specs.Threads.{Stays};
ghost use Rattle.orthogonal_laws.specs.HullRows.{least_over, hull_left};
ghost use Rattle.orthogonal_row_laws.specs.Lanes.{lane_at, lanes_from, from_west, from_east, Ruled, EmptyBefore, EmptyFrom};

use columns::{Columns, across, upward};

// Row q keeps the column x if it is less.
fn keep(a: &mut [u16], q: usize, x: usize)
    requires { (q < length a.old) × (x < 65536) }
    ensures { a.new ≡ sink a.old (q, x) }
{
    a[q] = a[q].min(x as u16);
}

// The height of the lower end of a vertical step d from height y.
fn foot(y: u16, d: u8) -> usize
    requires { 0 < y }
    ensures { result ≡ y - tally (ltb 2 d) }
{
    usize::from(y - u16::from(d > 2))
}

// The edge of a step d from column x and height y, if it is vertical, in the lanes of its row.
fn mark(d: u8, x: usize, y: u16, g: usize, up: usize, far: usize, lo: &mut [u16], hi: &mut [u16])
    requires { (d < 4) × (0 < y) × (0 < g) × (x ≤ far) × (far < 65536) × (up < 65536) × (y + up < length lo.old * g)
        × (length hi.old ≡ length lo.old) }
    ensures { (lo.new ≡ sinks lo.old (lane_at g up (λ z. z) x y d))
        × (hi.new ≡ sinks hi.old (lane_at g up (λ z. far - z) x y d)) }
{
    if d % 2 == 0 {
        return;
    }
    let q = (foot(y, d) + up) / g;
    keep(lo, q, x);
    keep(hi, q, far - x);
}

// The edges of a walk that starts in column and height m, in the lanes of their rows.
pub fn gather(
    chain: &[u8],
    m: u16,
    g: usize,
    right: usize,
    up: usize,
    far: usize,
    lo: &mut [u16],
    hi: &mut [u16],
)
    requires { Stays chain.now m (2 * m) × Below 4 chain.now × Ruled m g right up far (length lo.old)
        × (length hi.old ≡ length lo.old) }
    ensures { (lo.new ≡ sinks lo.old (lanes_from g up (from_west right) m m chain.now))
        × (hi.new ≡ sinks hi.old (lanes_from g up (from_east far right) m m chain.now)) }
{
    let by = Columns::EAST;
    let north = Columns::NORTH;
    let mut x = u32::from(m);
    let mut y = m;
    for &d in chain {
        mark(d, x as usize + right, y, g, up, far, lo, hi);
        x = across(x, &by, d);
        y = upward(y, &north, d);
    }
}

// How many rows before the first one with an edge.
pub fn first_row(a: &[u16]) -> usize
    ensures { EmptyBefore a.now result }
{
    // no `position`: an `Option` of a reference is laid out otherwise in the module for 32-bit WebAssembly
    for (q, &x) in a.iter().enumerate() {
        if x != Columns::BLANK {
            return q;
        }
    }
    a.len()
}

// The row after the last one with an edge.
pub fn end_row(a: &[u16]) -> usize
    ensures { EmptyFrom a.now result }
{
    for q in (0..a.len()).rev() {
        if a[q] != Columns::BLANK {
            return q + 1;
        }
    }
    0
}

// The columns as columns of blocks in a, and the least of each row and all rows after it in t.
fn look_back(a: &mut [u16], t: &mut [u16], g: usize)
    requires { (0 < length a.old) × (length a.old ≤ length t.old) × (0 < g) }
    ensures { ((q : ℕ) → q < length a.old → get_or a.new q 0 ≡ get_or a.old q 0 / g)
        × ((q : ℕ) → q < length a.old
        → get_or t.new q 0 ≡ least_over (λ k. get_or a.old k 0 / g) q (length a.old - 1 - q)) }
{
    let top = a.len() - 1;
    let mut least = usize::from(a[top]) / g;
    for q in (0..a.len()).rev() {
        let x = usize::from(a[q]) / g;
        least = least.min(x);
        a[q] = x as u16;
        t[q] = least as u16;
    }
}

// The greater of the least column of the rows up to each row and the least column of the rows from it on, which is in t.
fn settle(a: &mut [u16], t: &[u16])
    requires { (0 < length a.old) × (length a.old ≤ length t.now)
        × ((q : ℕ) → q < length a.old → get_or t.now q 0 ≡ least_over (λ k. get_or a.old k 0) q (length a.old - 1 - q)) }
    ensures { (q : ℕ) → q < length a.old
        → get_or a.new q 0 ≡ hull_left (λ k. get_or a.old k 0) (length a.old - 1) q }
{
    let mut least = a[0];
    for q in 0..a.len() {
        least = least.min(a[q]);
        a[q] = least.max(t[q]);
    }
}

// From the least column of each row to the end of that row of the hull, as a column of blocks. The store t is lent.
pub fn fill(a: &mut [u16], t: &mut [u16], g: usize)
    requires { (0 < length a.old) × (length a.old ≤ length t.old) × (0 < g) }
    ensures { (q : ℕ) → q < length a.old
        → get_or a.new q 0 ≡ hull_left (λ k. get_or a.old k 0 / g) (length a.old - 1) q }
{
    look_back(a, t, g);
    settle(a, t);
}
