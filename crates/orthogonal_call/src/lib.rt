// The orthogonal hull of a room on a grid: the call. The vertical edges of the room, by rows of blocks, give the ends of each
// row, two passes of minima the ends of the hull's rows, and the outline goes along them.
#![tactic(auto)]

ghost use Rattle.std.specs.Prelude.{◌≡◌, List, ℕ, ◌+◌, ◌*◌, ◌-◌, ◌/◌, ◌<◌, ◌≤◌, pos, nat_abs, ◌-ℤ◌, length, Ok, get_or};
ghost use Rattle.answer.specs.Limits.{most_start, most_steps};
ghost use Rattle.grid.specs.declared.Corner.{Corner};
ghost use Rattle.hull_laws.specs.Lowest.{blank};
ghost use Rattle.orthogonal.specs.Call.{most_grid, grid_fits, on_grid_judged, OrthogonalCall};
ghost use Rattle.orthogonal_call.specs.Store.{shift, home_in, Edgeless, Small, Outlinable, Shaped, Laned, LanesReady};

use answer::{Limits, Refusal, start_fits};
use columns::Columns;
use grid::Corner;
use orthogonal::{Enclosed, Grid};
use orthogonal_draw::{count, draw, home_row};
use orthogonal_lanes::{end_row, fill, first_row, gather};

// Blocks are counted from this one west and south of block 0.
const SHIFT: usize = 32768;

// How many rows of blocks a room of at most 256, of at most 2,048 and of any number of steps may need.
const NARROW: usize = Columns::NARROW + 2;

const WIDER: usize = Columns::WIDER + 2;

const WIDEST: usize = Limits::MOST_STEPS + 2;

// How far a coordinate lies after the beginning of block -32,768, where z stands at m.
fn lifted(z: i32, m: u16, g: usize) -> usize
    requires { (nat_abs z ≤ most_start) × (m ≤ most_steps) × (0 < g) × (g ≤ most_grid) }
    ensures { (z -ℤ pos m ≡ pos result -ℤ pos (shift * g)) × (result < 65536 * g) }
{
    (z - m as i32 + (SHIFT * g) as i32) as usize
}

// The block with this number.
fn lowered(n: usize) -> i32
    requires { n < 1048576 }
    ensures { result ≡ pos n -ℤ pos shift }
{
    n as i32 - SHIFT as i32
}

// How many steps the outline has: twice as many as the rows are wide and high.
fn around(lo: &[u16], hi: &[u16], span: usize, home: usize) -> usize
    requires { (0 < length hi.now) × (length hi.now ≡ length lo.now) × (home < length lo.now)
        × (length lo.now < 65536) × (span < 65536) × (get_or hi.now (home_in hi.now) 0 + get_or lo.now home 0 ≤ span) }
    ensures { result ≡ 2 * (span - get_or hi.now (home_in hi.now) 0 - get_or lo.now home
        0 + length lo.now) }
{
    let east = usize::from(hi[home_row(hi)]);
    2 * (span - east - usize::from(lo[home]) + lo.len())
}

// Writes the outline of the rows, unless out is too short.
fn outline_rows(
    lo: &[u16],
    hi: &[u16],
    span: usize,
    x: usize,
    y: usize,
    out: &mut [u8],
) -> Result<Enclosed, Refusal>
    requires { Small span x y lo.now hi.now
        × ((s : Corner) × (ds : List ℕ) × (g : ℕ) × Outlinable s ds g span x y lo.now hi.now) }
    ensures { (s : Corner) (ds : List ℕ) (g : ℕ) → Outlinable s ds g span x y lo.now hi.now
        → OrthogonalCall s ds g out.old result out.new }
{
    let home = home_row(lo);
    let steps = around(lo, hi, span, home);
    if out.len() < steps {
        return Err(Refusal::ChainRoom);
    }
    draw(lo, hi, span, home, out);
    let start = Corner(lowered(x + usize::from(lo[home])), lowered(y + home));
    let blocks = count(lo, hi, span);
    Ok(Enclosed {
        steps,
        start,
        blocks,
    })
}

// From the columns of the ends of the rows of blocks to the outline. The store t is lent.
fn shape(
    lo: &mut [u16],
    hi: &mut [u16],
    t: &mut [u16],
    g: usize,
    span: usize,
    x: usize,
    y: usize,
    out: &mut [u8],
) -> Result<Enclosed, Refusal>
    requires { Small span x y lo.old hi.old × (length lo.old ≤ length t.old) × (0 < g)
        × ((s : Corner) × (ds : List ℕ) × Shaped s ds g span x y lo.old hi.old) }
    ensures { (s : Corner) (ds : List ℕ) → Shaped s ds g span x y lo.old hi.old
        → OrthogonalCall s ds g out.old result out.new }
{
    fill(lo, t, g);
    fill(hi, t, g);
    outline_rows(lo, hi, span, x, y, out)
}

// From the lanes of all rows of blocks to the outline: only the rows from the first to the last one with an edge count.
fn cut(
    lo: &mut [u16],
    hi: &mut [u16],
    t: &mut [u16],
    g: usize,
    x: usize,
    y: usize,
    out: &mut [u8],
) -> Result<Enclosed, Refusal>
    requires { (0 < g) × (length hi.old ≡ length lo.old) × (length t.old ≡ length lo.old) × (length lo.old < blank)
        × (x < 65536 * g) × (y < 65536 * g)
        × ((s : Corner) × (ds : List ℕ) × (m : ℕ) × Laned s ds g m (length lo.old) x y lo.old hi.old) }
    ensures { (s : Corner) (ds : List ℕ) (m : ℕ) → Laned s ds g m (length lo.old) x y lo.old hi.old
        → OrthogonalCall s ds g out.old result out.new }
{
    let span = lo.len();
    let south = first_row(lo);
    let north = end_row(lo);
    shape(
        &mut lo[south..north],
        &mut hi[south..north],
        &mut t[south..north],
        g,
        span,
        x / g,
        y / g + south,
        out,
    )
}

// The outline for a room on a grid, in a store with as many rows of blocks as it may need.
fn trace(
    start: Corner,
    chain: &[u8],
    m: u16,
    g: usize,
    lo: &mut [u16],
    hi: &mut [u16],
    t: &mut [u16],
    out: &mut [u8],
) -> Result<Enclosed, Refusal>
    requires { LanesReady start chain.now g m lo.old hi.old t.old }
    ensures { OrthogonalCall start chain.now g out.old result out.new }
{
    let x = lifted(start.0, m, g);
    let y = lifted(start.1, m, g);
    gather(chain, m, g, x % g, y % g, lo.len() * g, lo, hi);
    cut(lo, hi, t, g, x, y, out)
}

// How many rows of blocks a room needs if its walk starts in column and height m.
fn rows(m: u16, g: usize) -> usize
    requires { (0 < m) × (0 < g) }
    ensures { (result ≡ (2 * m - 2) / g + 2) × (result ≤ 2 * m) }
{
    (2 * usize::from(m) - 2) / g + 2
}

// A start and a chain that were judged to be a room, with the size of the grid.
#[derive(Clone, Copy)]
struct Site<'a> {
    start: Corner,
    chain: &'a [u8],
    g: usize,
    ghost judged: { on_grid_judged start chain.now g ≡ Ok tt },
}

// The outline for a room on a grid. The working store is lent.
fn outline_in(
    site: &Site<'_>,
    lo: &mut [u16],
    hi: &mut [u16],
    t: &mut [u16],
    out: &mut [u8],
) -> Result<Enclosed, Refusal>
    requires { (length site.now.chain.now + 2 ≤ length lo.old) × Edgeless lo.old × Edgeless hi.old
        × (length hi.old ≡ length lo.old) × (length t.old ≡ length lo.old) }
    ensures { OrthogonalCall site.now.start site.now.chain.now site.now.g out.old result out.new }
{
    let m = room_threads::start(site.chain.len());
    let n = rows(m, site.g);
    trace(
        site.start,
        site.chain,
        m,
        site.g,
        &mut lo[..n],
        &mut hi[..n],
        &mut t[..n],
        out,
    )
}

// The same with a store for N rows of blocks: two more than the room has steps, or still more.
fn outline_sized<const N: usize>(site: &Site<'_>, out: &mut [u8]) -> Result<Enclosed, Refusal>
    requires { (length site.now.chain.now + 2 ≤ N) × (N < 65536) }
    ensures { OrthogonalCall site.now.start site.now.chain.now site.now.g out.old result out.new }
{
    let mut lo = [Columns::BLANK; N];
    let mut hi = [Columns::BLANK; N];
    let mut t = [0u16; N];
    outline_in(site, &mut lo, &mut hi, &mut t, out)
}

// The same with a store that is not much larger than it needs: to clear it takes time.
fn outline_room(site: &Site<'_>, out: &mut [u8]) -> Result<Enclosed, Refusal>
    ensures { OrthogonalCall site.now.start site.now.chain.now site.now.g out.old result out.new }
{
    let steps = site.chain.len();
    if steps <= Columns::NARROW {
        return outline_sized::<NARROW>(site, out);
    }
    if steps <= Columns::WIDER {
        return outline_sized::<WIDER>(site, out);
    }
    outline_sized::<WIDEST>(site, out)
}

// Whether it is a grid size.
fn grid_fits(grid: u32) -> bool
    ensures { result ≡ grid_fits grid }
{
    grid >= 1 && grid <= Grid::MOST
}

// What is wrong with a start, a chain and a grid size: 1, then 10, then 22, then 4 or 6 at the first faulty place, then 12.
fn judge(start: Corner, chain: &[u8], grid: u32) -> Result<(), Refusal>
    ensures { result ≡ on_grid_judged start chain.now grid }
{
    if chain.len() > Limits::MOST_INPUT {
        return Err(Refusal::TooMany);
    }
    if !start_fits(start) {
        return Err(Refusal::StartRange);
    }
    if !grid_fits(grid) {
        return Err(Refusal::GridSize);
    }
    room_judge::judge(start, chain)
}

// Writes the outline of the orthogonal hull of a room's blocks, counterclockwise from the lowest of its leftmost corners, and
// answers how many steps it has, where it starts and how many blocks are inside. A refused call writes nothing.
pub fn outline(start: Corner, chain: &[u8], grid: u32, out: &mut [u8]) -> Result<Enclosed, Refusal>
    ensures { OrthogonalCall start chain.now grid out.old result out.new }
{
    judge(start, chain, grid)?;
    let site = Site {
        start,
        chain,
        g: grid as usize,
    };
    outline_room(&site, out)
}
