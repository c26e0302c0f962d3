// From the two chains to the corners in the buffer.
#![tactic(auto)]

ghost use Rattle.std.specs.Prelude.{◌≡◌, map, ◌&&◌, ◌+◌, ◌*◌, ◌-◌, ◌<◌, ◌≤◌, eqb, ltb, pos, nat_abs, ◌+ℤ◌, ◌-ℤ◌, ◌*ℤ◌, length, set};
ghost use Rattle.lists.specs.Lists.{tally};
ghost use Rattle.std.proofs.lemmas.List.Edits.{sets};
ghost use Rattle.grid.specs.Grid.{numbers};
ghost use Rattle.hull_laws.specs.Chain.{hull_by, spot_by, col_at};
ghost use Rattle.column_laws.specs.Columns.{spot, middle, top};
ghost use Rattle.answer.specs.Limits.{most_start, farthest, Near};
ghost use Rattle.hull_corners.specs.Parts.{both_sides, two_at, Puts, Parts, TwoChains, ListGiven};

use answer::Refusal;
use columns::Columns;
use grid::Corner;
use hull_columns::Extent;

// A coordinate: n steps of `way`, which is 1 or -1, from `base`.
fn coordinate(base: i32, way: i32, n: u16) -> i32
    requires { (nat_abs base ≤ 2 * farthest) × (nat_abs way ≤ 1) }
    ensures { result ≡ base +ℤ (way *ℤ pos n) }
{
    base + way * i32::from(n)
}

// Writes x and y of the corner at column c and height y to place o.
fn put_corner(out: &mut [i32], o: usize, base: Corner, way: i32, c: u16, y: u16)
    requires { (o + 1 < length out.old) × (nat_abs base.0 ≤ 2 * farthest)
        × (nat_abs base.1 ≤ 2 * farthest) × (nat_abs way ≤ 1) }
    ensures { out.new
        ≡ set (set out.old o (spot_by base way (c, y)).0) (o + 1) (spot_by base way (c, y)).1 }
{
    out[o] = coordinate(base.0, way, c);
    out[o + 1] = coordinate(base.1, way, y);
}

// Writes the corners of the columns s from place `at` on.
fn put(out: &mut [i32], at: usize, base: Corner, way: i32, ys: &[u16], s: &[u16])
    requires { Puts (length out.old) at base way ys.now s.now }
    ensures { out.new ≡ sets out.old at
        (numbers (map (λ c. spot_by base way (col_at ys.now c)) s.now)) }
{
    let mut o = at;
    for &c in s {
        put_corner(out, o, base, way, c, ys[usize::from(c)]);
        o += 2;
    }
}

// Whether the lowest and the highest corner of a column are one, if the second is counted from above.
fn meet(lo: u16, hi: u16) -> bool
    ensures { result ≡ eqb (lo + hi) top }
{
    u32::from(lo) + u32::from(hi) == u32::from(Columns::TOP)
}

// How many corners the upper chain begins with that the lower one ends with.
fn seam(lo: u16, hi: u16) -> usize
    ensures { result ≡ tally (eqb (lo + hi) top) }
{
    usize::from(meet(lo, hi))
}

// Where it ends, without a last corner that the lower one begins with.
fn close(lo: u16, hi: u16, f: usize, n: usize) -> usize
    ensures { result ≡ n - tally (ltb f n && eqb (lo + hi) top) }
{
    n - usize::from(f < n && meet(lo, hi))
}

// The coordinate at place n, if z stands in the middle.
fn shifted(z: i32, n: usize) -> i32
    requires { (nat_abs z ≤ most_start) × (n ≤ top) }
    ensures { result ≡ (z -ℤ pos middle) +ℤ pos n }
{
    z - Columns::SHIFT + n as i32
}

// The corner at this column and height, if start stands in the middle.
fn placed(start: Corner, column: usize, height: usize) -> Corner
    requires { Near start × (column ≤ top) × (height ≤ top) }
    ensures { result ≡ spot (start.0 -ℤ pos middle) (start.1 -ℤ pos middle) (column, height) }
{
    let x = shifted(start.0, column);
    let y = shifted(start.1, height);
    Corner(x, y)
}

// Writes the lower chain, s, and then t, which is a part of the upper one.
fn write(
    start: Corner,
    extent: Extent,
    lo: &[u16],
    hi: &[u16],
    s: &[u16],
    t: &[u16],
    out: &mut [i32],
)
    requires { Near start × Parts extent.west extent.east lo.now hi.now s.now t.now (length out.old) }
    ensures { out.new ≡ sets out.old 0
        (numbers (both_sides start extent.west extent.east lo.now hi.now s.now t.now)) }
{
    let first = placed(start, extent.west, 0);
    let last = placed(start, extent.east, Columns::LAST);
    put(out, 0, first, 1, lo, s);
    put(out, 2 * s.len(), last, -1, hi, t);
}

// Writes both chains if the buffer is long enough, and answers how many corners there are.
pub fn finish(
    start: Corner,
    extent: Extent,
    lo: &[u16],
    hi: &[u16],
    s: &[u16],
    t: &[u16],
    out: &mut [i32],
) -> Result<usize, Refusal>
    requires { Near start × TwoChains extent.west extent.east lo.now hi.now s.now t.now }
    ensures { ListGiven (hull_by (start.0 -ℤ pos middle) (start.1 -ℤ pos middle) extent.west
        extent.east top lo.now hi.now) out.old result out.new }
{
    let k = extent.east - extent.west;
    let f = seam(lo[k], hi[0]);
    let g = close(lo[0], hi[k], f, t.len());
    let part = &t[f..g];
    let count = s.len() + part.len();
    if out.len() < 2 * count {
        return Err(Refusal::HullRoom);
    }
    write(start, extent, lo, hi, s, part, out);
    Ok(count)
}

// Writes the corners at the start's height in the first and the last column if the buffer is long enough, and answers that there
// are two.
pub fn ends(start: Corner, extent: Extent, out: &mut [i32]) -> Result<usize, Refusal>
    requires { Near start × (extent.west ≤ top) × (extent.east ≤ top) }
    ensures { ListGiven (two_at start extent.west extent.east) out.old result out.new }
{
    if out.len() < 4 {
        return Err(Refusal::HullRoom);
    }
    let base = placed(start, 0, 0);
    put_corner(out, 0, base, 1, extent.west as u16, Columns::LEVEL);
    put_corner(out, 2, base, 1, extent.east as u16, Columns::LEVEL);
    Ok(2)
}
