// The outer outline of a walk: the call.
#![tactic(auto)]

ghost use Rattle.std.specs.Prelude.{ℕ, ◌*◌, ◌<◌, ◌≤◌, ◌≡◌, suc, length, get_or};
ghost use Rattle.answer.specs.Limits.{most_steps};
ghost use Rattle.grid.specs.declared.Corner.{Corner};
ghost use Rattle.outline.specs.Call.{OutlineCall};
ghost use Rattle.outline_links.specs.Built.{Blank};
ghost use Rattle.outline_call.specs.Traced.{Steady, MapFits, Traced};

use answer::{Limits, Refusal};
use box_walk::{WalkBox, enclose};
use chain_judge::judge;
use columns::Columns;
use grid::Corner;
use outline_links::build;
use outline_map::{Ring, across, fits, mark};
use outline_path::{count, first_way, put};

// The sizes of the stores in corners: a walk comes to one more than it has steps.
const NARROW_STORE: usize = Columns::NARROW + 1;

const WIDER_STORE: usize = Columns::WIDER + 1;

const WIDEST_STORE: usize = Limits::MOST_STEPS + 1;

// The sizes of the maps in bytes, one for each corner of a box. A store has 16 bytes for each of its corners.
const NARROW_MAP: usize = 16 * Columns::NARROW;

const WIDER_MAP: usize = 16 * Columns::WIDER;

const WIDEST_MAP: usize = 16 * Limits::MOST_STEPS;

// The outline of a walk with steps, through a store that is lent blank.
fn write_in(
    chain: &[u8],
    keys: &mut [u32],
    kids: &mut [u16],
    links: &mut [u16],
    out: &mut [u8],
) -> Result<usize, Refusal>
    requires { Blank chain.now keys.old kids.old links.old × (0 < length chain.now) }
    ensures { (c : Corner) → Traced c chain.now out.old result out.new }
{
    let home = build(chain, keys, kids, links);
    let first = first_way(links, home);
    let n = count(chain, links, home, first);
    if out.len() < n {
        return Err(Refusal::OutlineRoom);
    }
    put(chain, links, home, first, n, out);
    Ok(n)
}

// The same with a store for N corners.
fn write_sized<const N: usize>(chain: &[u8], out: &mut [u8]) -> Result<usize, Refusal>
    requires { Steady chain.now × (0 < length chain.now) × (length chain.now < N) × (N ≤ suc most_steps) }
    ensures { (c : Corner) → Traced c chain.now out.old result out.new }
{
    let mut keys = [0u32; N];
    let mut kids = [[0u16; 2]; N];
    let mut links = [[0u16; 4]; N];
    write_in(
        chain,
        &mut keys,
        kids.as_flattened_mut(),
        links.as_flattened_mut(),
        out,
    )
}

// The outline of a walk with steps, in a map of its box that is lent blank: one byte for each corner, column after column.
fn write_on(chain: &[u8], b: WalkBox, map: &mut [u8], out: &mut [u8]) -> Result<usize, Refusal>
    requires { MapFits chain.now b.width b.height b.from b.closed (length map.old)
        × ((l : ℕ) → get_or map.old l 0 ≡ 0) }
    ensures { (c : Corner) → Traced c chain.now out.old result out.new }
{
    let h = b.height;
    let by = [h, 1, usize::MAX - h + 1, usize::MAX];
    let home = mark(chain, across(b.from, b.width, h), &by, map);
    let first = outline_map::first_way(map, home);
    let ring = Ring {
        chain,
        by: &by,
        map,
        home,
        first,
    };
    if !fits(&ring, out.len()) {
        return Err(Refusal::OutlineRoom);
    }
    Ok(outline_map::put(&ring, out))
}

// The same with a map of SIZE bytes.
fn map_sized<const SIZE: usize>(chain: &[u8], b: WalkBox, out: &mut [u8]) -> Result<usize, Refusal>
    requires { MapFits chain.now b.width b.height b.from b.closed SIZE × (SIZE ≤ 16 * most_steps) }
    ensures { (c : Corner) → Traced c chain.now out.old result out.new }
{
    let mut map = [0u8; SIZE];
    write_on(chain, b, &mut map, out)
}

// The outline of a chain that is not refused: in a map if the box of the walk fits into it, and otherwise through a store of keys
// and links. Neither is much larger than the walk needs: to clear it takes time.
fn write_from(chain: &[u8], out: &mut [u8]) -> Result<usize, Refusal>
    requires { Steady chain.now }
    ensures { (c : Corner) → Traced c chain.now out.old result out.new }
{
    if chain.is_empty() {
        return Ok(0);
    }
    let b = enclose(chain);
    let size = b.width * b.height;
    if size <= NARROW_MAP {
        return map_sized::<NARROW_MAP>(chain, b, out);
    }
    if chain.len() <= Columns::NARROW {
        return write_sized::<NARROW_STORE>(chain, out);
    }
    if size <= WIDER_MAP {
        return map_sized::<WIDER_MAP>(chain, b, out);
    }
    if chain.len() <= Columns::WIDER {
        return write_sized::<WIDER_STORE>(chain, out);
    }
    if size <= WIDEST_MAP {
        return map_sized::<WIDEST_MAP>(chain, b, out);
    }
    write_sized::<WIDEST_STORE>(chain, out)
}

// Writes the steps of the outer outline of the walk from start, and answers how many there are. Refuses too many bytes, a start
// out of range, a digit above 3, a step too many, and a buffer that is too short; then it writes nothing.
pub fn write(start: Corner, chain: &[u8], out: &mut [u8]) -> Result<usize, Refusal>
    ensures { OutlineCall start chain.now out.old result out.new }
{
    judge(start, chain)?;
    write_from(chain, out)
}
