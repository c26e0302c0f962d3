// How far a walk goes, and the lowest corner of each of its columns.
#![tactic(auto)]

ghost use Rattle.std.specs.Prelude.{◌≡◌, map, ◌-◌, ◌<◌, length, Ok, replicate};
ghost use Rattle.steps.specs.Chain.{chain_judged};
ghost use Rattle.column_laws.specs.Columns.{middle, top, trail};
ghost use Rattle.hull_laws.specs.Lowest.{blank, sink, sinks, counted_from, half_turned};
ghost use Rattle.hull_columns.specs.Extent.{extent_of, Spans, Mirrored};

use columns::{Columns, across, upward};

// The westmost and the eastmost column of a walk.
#[derive(Clone, Copy)]
pub struct Extent {
    pub west: usize,
    pub east: usize,
}

// How far a walk without a fault goes.
pub fn survey(chain: &[u8]) -> Extent
    requires { chain_judged 0 chain.now ≡ Ok tt }
    ensures extent { result ≡ extent_of chain.now }
    ensures spans { Spans chain.now result.west result.east }
{
    let by = Columns::EAST;
    let mut x = Columns::MIDDLE as u32;
    let mut west = Columns::MIDDLE;
    let mut east = Columns::MIDDLE;
    for &d in chain {
        x = across(x, &by, d);
        west = west.min(x as usize);
        east = east.max(x as usize);
    }
    Extent { west, east }
}

// Column c keeps the height y if it is lower.
fn keep(ys: &mut [u16], c: usize, y: u16)
    requires { c < length ys.old }
    ensures { ys.new ≡ sink ys.old (c, y) }
{
    ys[c] = ys[c].min(y);
}

// Puts the columns 0 to m into the order from right to left.
fn mirror(ys: &mut [u16], m: usize)
    requires { m < length ys.old }
    ensures { Mirrored m ys.old ys.new }
{
    ys[..=m].reverse();
}

// Keeps the lowest corner of each column in lo, counted from west, and in hi that of the walk turned by half a turn, from east.
// Both are counted from west at first, so that a corner has one place in both.
pub fn fill(chain: &[u8], extent: Extent, lo: &mut [u16], hi: &mut [u16])
    requires { Spans chain.now extent.west extent.east × (extent.east - extent.west < length lo.old)
        × (extent.east - extent.west < length hi.old) × (hi.old ≡ replicate (length hi.old) blank) }
    ensures { (lo.new ≡ sinks lo.old
        (map (counted_from extent.west) (trail middle middle chain.now)))
        × (hi.new ≡ sinks hi.old (map (half_turned extent.east top) (trail middle middle chain.now))) }
{
    let by = Columns::EAST;
    let up = Columns::NORTH;
    let mut x = Columns::MIDDLE as u32;
    let mut y = Columns::LEVEL;
    for &d in chain {
        let c = x as usize - extent.west;
        keep(lo, c, y);
        keep(hi, c, Columns::TOP - y);
        x = across(x, &by, d);
        y = upward(y, &up, d);
    }
    let c = x as usize - extent.west;
    keep(lo, c, y);
    keep(hi, c, Columns::TOP - y);
    mirror(hi, extent.east - extent.west);
}
