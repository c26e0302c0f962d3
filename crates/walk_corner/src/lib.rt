// Corners as the code has them: where a step leads, the parent, the child's word, and whether the parents of two neighbours
// differ.
#![tactic(auto)]

ghost use Rattle.std.specs.Prelude.{◌≡◌, ◌<◌, ◌≤◌, nat_abs, ◌+ℤ◌};
ghost use Rattle.grid.specs.Grid.{stepped, east_of, north_of};
ghost use Rattle.walk_corner.specs.Moves.{difference_of, parted_by};
ghost use Rattle.grid.specs.Tree.{up_by, half_of, parent_of, is_root, slot_of, child_word};

use grid::Corner;

// Half the magnitude, with the sign kept: the division rounds toward zero.
fn half_of(x: i32) -> i32
    ensures { result ≡ half_of x }
{
    x / 2
}

// The parent of c.
pub fn parent_of(c: Corner) -> Corner
    ensures { result ≡ parent_of c }
{
    Corner(half_of(c.0), half_of(c.1))
}

// The i-th parent of c; the root is its own parent.
pub fn up_by(c: Corner, i: usize) -> Corner
    ensures { result ≡ up_by i c }
{
    let mut at = c;
    for _ in 0..i {
        at = parent_of(at);
    }
    at
}

// 1 if only the first holds, -1 if only the second does.
fn difference(a: bool, b: bool) -> i32
    ensures { result ≡ difference_of a b }
{
    i32::from(a) - i32::from(b)
}

// What the step d adds to x.
fn east(d: u8) -> i32
    ensures { result ≡ east_of d }
{
    difference(d == 0, d == 2)
}

// What the step d adds to y.
pub fn north(d: u8) -> i32
    ensures { result ≡ north_of d }
{
    difference(d == 1, d > 2)
}

fn shifted(x: i32, by: i32) -> i32
    requires { (nat_abs x < 65536) × (nat_abs by ≤ 1) }
    ensures { result ≡ x +ℤ by }
{
    x + by
}

// The corner one step from c in the direction d.
pub fn moved(c: Corner, d: u8) -> Corner
    requires { (nat_abs c.0 < 65536) × (nat_abs c.1 < 65536) }
    ensures { result ≡ stepped d c }
{
    let x = shifted(c.0, east(d));
    let y = shifted(c.1, north(d));
    Corner(x, y)
}

// 1 + the child's index on one axis.
fn slot_of(x: i32) -> usize
    ensures { result ≡ slot_of x }
{
    if x == -1 {
        0
    } else if x % 2 == 0 {
        1
    } else {
        2
    }
}

// The word of its parent's record in which e stands.
pub fn child_word(e: Corner) -> usize
    ensures { result ≡ child_word e }
{
    1 + 3 * slot_of(e.0) + slot_of(e.1)
}

// Whether c is the root.
pub fn is_root(c: Corner) -> bool
    ensures { result ≡ is_root c }
{
    c == Corner(0, 0)
}

// Whether neither c nor its neighbour in the direction d is the root, and their parents differ. The parents alone show it: those
// of the root and of each neighbour of it are both the root.
pub fn parted(c: Corner, d: u8) -> bool
    requires { (nat_abs c.0 < 65536) × (nat_abs c.1 < 65536) }
    ensures { result ≡ parted_by d c }
{
    let e = moved(c, d);
    parent_of(c) != parent_of(e)
}
