// The box of a walk, in one pass over its chain.
#![tactic(auto)]

ghost use Rattle.std.specs.Prelude.{◌≡◌, true, ◌↔◌};
ghost use Rattle.column_laws.specs.Columns.{middle};
ghost use Rattle.box_laws.specs.Box.{Boxable, Reached, Framed};
ghost use Rattle.box_walk.specs.Boxed.{Boxed};

use columns::Columns;

// How many columns and how many rows of corners the box has, the place of the walk's start in it, and whether the walk ends
// there.
#[derive(Clone, Copy)]
pub struct WalkBox {
    pub width: usize,
    pub height: usize,
    pub from: usize,
    pub closed: bool,
}

// Whether this is the column and the height of the start.
fn at_start(x: usize, y: usize) -> bool
    ensures { (result ≡ true) ↔ ((x ≡ middle) × (y ≡ middle)) }
{
    x == Columns::MIDDLE && y == Columns::MIDDLE
}

// The box that reaches from the column west to the column east, and from the height south to the height north.
fn framed(west: usize, east: usize, south: usize, north: usize, closed: bool) -> WalkBox
    requires { Reached west east south north }
    ensures { Framed west east south north result.width result.height result.from × (result.closed ≡ closed) }
{
    let width = east - west + 1;
    WalkBox {
        width,
        height: north - south + 1,
        from: (Columns::MIDDLE - south) * width + (Columns::MIDDLE - west),
        closed,
    }
}

// The box of the walk of these steps. What a step adds to the column and to the height stands in two tables.
pub fn enclose(chain: &[u8]) -> WalkBox
    requires { Boxable chain.now }
    ensures { Boxed chain.now result.width result.height result.from result.closed }
{
    let dx = [1, 0, usize::MAX, 0];
    let dy = [0, 1, 0, usize::MAX];
    let mut x = Columns::MIDDLE;
    let mut y = Columns::MIDDLE;
    let mut west = x;
    let mut east = x;
    let mut south = y;
    let mut north = y;
    for &step in chain {
        let d = usize::from(step);
        x = x.wrapping_add(dx[d]);
        y = y.wrapping_add(dy[d]);
        west = west.min(x);
        east = east.max(x);
        south = south.min(y);
        north = north.max(y);
    }
    framed(west, east, south, north, at_start(x, y))
}
