// The columns of a walk, counted so that its start stands in the middle one.
#![tactic(auto)]

ghost use Rattle.std.specs.Prelude.{◌≡◌, ◌<◌, ◌≤◌};
ghost use Rattle.column_laws.specs.Columns.{col_after, row_after, top};
ghost use Rattle.columns.specs.Steps.{east_steps, north_steps};

use answer::Limits;

// The columns that a walk may go through, and the heights of its corners. Its start stands in the middle of both.
#[derive(Clone, Copy)]
pub struct Columns;

impl Columns {
    // the column of the start
    pub const MIDDLE: usize = Limits::MOST_STEPS;

    // the last column
    pub const LAST: usize = 2 * Columns::MIDDLE;

    // the height of the start
    pub const LEVEL: u16 = Columns::MIDDLE as u16;

    // the greatest height, from which the walk turned by half a turn counts
    pub const TOP: u16 = 2 * Columns::LEVEL;

    // the sizes of the two smaller working stores, in steps or in columns
    pub const NARROW: usize = 256;

    pub const WIDER: usize = 2048;

    // the height of a column that has none yet: above all heights, so that the lower of it and a height is the height
    pub const BLANK: u16 = u16::MAX;

    // how far the start lies from column 0 and from height 0
    pub const SHIFT: i32 = Columns::MIDDLE as i32;

    // how far each step goes east, and how far north, to be added modulo 2^32 and modulo 2^16
    pub const EAST: [u32; 4] = [1, 0, u32::MAX, 0];

    pub const NORTH: [u16; 4] = [0, 1, 0, u16::MAX];
}

// The column after step d.
pub fn column(x: usize, d: u8) -> usize
    requires { (0 < x) × (x ≤ top) }
    ensures { result ≡ col_after x d }
{
    x + usize::from(d == 0) - usize::from(d == 2)
}

// The height after step d.
pub fn height(y: u16, d: u8) -> u16
    requires { (0 < y) × (y ≤ top) }
    ensures { result ≡ row_after y d }
{
    y + u16::from(d == 1) - u16::from(d > 2)
}

// The column after step d, by the table of steps east.
pub fn across(x: u32, by: &[u32; 4], d: u8) -> u32
    requires { (by.now ≡ east_steps) × (d < 4) × (0 < x) × (x ≤ top) }
    ensures { result ≡ col_after x d }
{
    x.wrapping_add(by[usize::from(d)])
}

// The height after step d, by the table of steps north.
pub fn upward(y: u16, by: &[u16; 4], d: u8) -> u16
    requires { (by.now ≡ north_steps) × (d < 4) × (0 < y) × (y ≤ top) }
    ensures { result ≡ row_after y d }
{
    y.wrapping_add(by[usize::from(d)])
}
