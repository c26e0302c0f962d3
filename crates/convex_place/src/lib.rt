// Where the extremal corners of a walk stand, and which way round it goes.
#![tactic(auto)]

ghost use Rattle.std.specs.Prelude.{◌≡◌, ◌≤◌, ltb, length};
ghost use Rattle.column_laws.specs.Columns.{middle, top};
ghost use Rattle.convex_laws.specs.Place.{rank, rank_at, place_of};
ghost use Rattle.convex_laws.specs.Way.{north_in, south_in, column_sum};

use columns::{Columns, column, height};

// The number of the corner in column x at height y, after some quarter turns.
fn number(turn: u8, x: usize, y: usize) -> usize
    requires { (x ≤ top) × (y ≤ top) }
    ensures { result ≡ rank turn x y }
{
    match turn {
        0 => x * 65536 + y,
        1 => (Columns::LAST - y) * 65536 + x,
        2 => (Columns::LAST - x) * 65536 + (Columns::LAST - y),
        _ => y * 65536 + (Columns::LAST - x),
    }
}

// The same with its place.
fn number_at(turn: u8, x: usize, y: u16, i: usize) -> usize
    requires { (x ≤ top) × (y ≤ top) × (i ≤ middle) }
    ensures { result ≡ rank_at turn x y i }
{
    number(turn, x, usize::from(y)) * 32768 + i
}

// The place of the first extremal corner: of the lowest on the left, or of the one that is so after some quarter turns.
pub fn place(chain: &[u8], turn: u8) -> usize
    requires { length chain.now ≤ middle }
    ensures { result ≡ place_of turn chain.now }
{
    let mut x = Columns::MIDDLE;
    let mut y = Columns::LEVEL;
    let mut least = number_at(turn, x, y, 0);
    for (i, &d) in chain.iter().enumerate() {
        x = column(x, d);
        y = height(y, d);
        least = least.min(number_at(turn, x, y, i + 1));
    }
    least % 32768
}

// The column of a step north, 0 for another step.
fn north(x: usize, d: u8) -> usize
    requires { x ≤ top }
    ensures { result ≡ north_in x d }
{
    x * usize::from(d == 1)
}

// The column of a step south, 0 for another step.
fn south(x: usize, d: u8) -> usize
    requires { x ≤ top }
    ensures { result ≡ south_in x d }
{
    x * usize::from(d > 2)
}

// Whether the columns of the steps north have the greater sum: then a closed walk goes round with its inside on the left.
pub fn leftward(chain: &[u8]) -> bool
    requires { length chain.now ≤ middle }
    ensures { result ≡ ltb (column_sum south_in middle chain.now) (column_sum north_in middle chain.now) }
{
    let mut x = Columns::MIDDLE;
    let mut up = 0;
    let mut down = 0;
    for &d in chain {
        up += north(x, d);
        down += south(x, d);
        x = column(x, d);
    }
    down < up
}
