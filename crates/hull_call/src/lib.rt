// Lists the convex hull of a walk's corners: the lowest and the highest corner of each column, a chain over each, and both as one
// list. The upper chain is the lower one of the walk turned by half a turn.
#![tactic(auto)]

ghost use Rattle.std.specs.Prelude.{◌≡◌, ◌-◌, ◌<◌, ◌≤◌, Ok, length};
ghost use Rattle.answer.specs.Limits.{Near};
ghost use Rattle.steps.specs.Chain.{chain_judged};
ghost use Rattle.hull.specs.Call.{HullCall};
ghost use Rattle.hull_columns.specs.Extent.{Spans};
ghost use Rattle.hull_call.specs.Store.{medium_size, HullStore, Hulled};

use answer::{Limits, Refusal};
use chain_judge::judge;
use columns::Columns;
use grid::Corner;
use hull_chains::scan;
use hull_columns::{Extent, fill, survey};
use hull_corners::{ends, finish};

// The columns that the small store has, the medium one, which has as many as 1,024 steps go through, and the widest.
const SMALL: usize = 32;

const MEDIUM: usize = 1025;

const WIDEST: usize = Limits::MOST_STEPS + 1;

// The hull of the walk from start, which goes through these columns. The working store is lent; lo and hi have a place for each
// column, and hold no height yet.
fn list_in(
    chain: &[u8],
    start: Corner,
    extent: Extent,
    lo: &mut [u16],
    hi: &mut [u16],
    s: &mut [u16],
    t: &mut [u16],
    out: &mut [i32],
) -> Result<usize, Refusal>
    requires { Spans chain.now extent.west extent.east × Near start
        × HullStore extent.west extent.east lo.old hi.old s.old t.old }
    ensures { Hulled start chain.now out.old result out.new }
{
    fill(chain, extent, lo, hi);
    let a = scan(lo, s);
    let b = scan(hi, t);
    finish(start, extent, lo, hi, &s[a..], &t[b..], out)
}

// The same with a store for SIZE columns.
fn list_sized<const SIZE: usize>(
    chain: &[u8],
    start: Corner,
    extent: Extent,
    out: &mut [i32],
) -> Result<usize, Refusal>
    requires { Spans chain.now extent.west extent.east × Near start × (extent.east - extent.west < SIZE) × (SIZE ≤ 65536) }
    ensures { Hulled start chain.now out.old result out.new }
{
    let mut lo = [Columns::BLANK; SIZE];
    let mut hi = [Columns::BLANK; SIZE];
    let mut s = [0u16; SIZE];
    let mut t = [0u16; SIZE];
    let n = extent.east - extent.west + 1;
    list_in(
        chain,
        start,
        extent,
        &mut lo[..n],
        &mut hi[..n],
        &mut s,
        &mut t,
        out,
    )
}

// The hull of the walk from start, with a store that is not much larger than it needs: to clear it takes time. A walk that goes
// through a new column at each step is along one line, and needs none.
fn list_from(chain: &[u8], start: Corner, out: &mut [i32]) -> Result<usize, Refusal>
    requires { (chain_judged 0 chain.now ≡ Ok tt) × Near start }
    ensures { Hulled start chain.now out.old result out.new }
{
    let extent = survey(chain);
    let Extent { west, east } = extent;
    if west < east && east - west == chain.len() {
        return ends(start, extent, out);
    }
    if chain.len() < SMALL {
        return list_sized::<SMALL>(chain, start, extent, out);
    }
    if east - west < Columns::NARROW {
        return list_sized::<{ Columns::NARROW }>(chain, start, extent, out);
    }
    if east - west < Columns::WIDER {
        return list_sized::<{ Columns::WIDER }>(chain, start, extent, out);
    }
    list_sized::<WIDEST>(chain, start, extent, out)
}

// Writes x and y of each corner of the hull of the walk from start, and answers how many corners there are. Refuses too many
// bytes, a start out of range, a digit above 3, a step too many, and a buffer that is too short; then it writes nothing.
pub fn list(start: Corner, chain: &[u8], out: &mut [i32]) -> Result<usize, Refusal>
    ensures { HullCall start chain.now out.old result out.new }
{
    judge(start, chain)?;
    list_from(chain, start, out)
}

// The hull of a walk from start through at most 1,025 columns.
fn list_short_from(chain: &[u8], start: Corner, out: &mut [i32]) -> Result<usize, Refusal>
    requires { (chain_judged 0 chain.now ≡ Ok tt) × Near start × (length chain.now < medium_size) }
    ensures { Hulled start chain.now out.old result out.new }
{
    let extent = survey(chain);
    if extent.east - extent.west >= Columns::NARROW {
        return list_sized::<MEDIUM>(chain, start, extent, out);
    }
    list_sized::<{ Columns::NARROW }>(chain, start, extent, out)
}

// What `list` does, for at most 1,024 bytes: no larger store is in its frame.
pub fn list_short(start: Corner, chain: &[u8], out: &mut [i32]) -> Result<usize, Refusal>
    requires { length chain.now < medium_size }
    ensures { HullCall start chain.now out.old result out.new }
{
    judge(start, chain)?;
    list_short_from(chain, start, out)
}
