// Whether a walk is a room, by a byte for each corner of its box: a byte that is 1 already is a meeting. If the box is too large
// for the store, threads through the columns show it.
#![tactic(auto)]

ghost use Rattle.std.specs.Prelude.{◌≤◌};
ghost use Rattle.box_laws.specs.Box.{Boxable};
ghost use Rattle.box_walk.specs.Boxed.{Boxed};
ghost use Rattle.room_thread_laws.specs.Threads.{Told};
ghost use Rattle.room_map.specs.Map.{MapStore, BoxFits, Lone};

use box_walk::{WalkBox, enclose};
use columns::Columns;

// The sizes of the maps, in corners of the box.
#[derive(Clone, Copy)]
struct Map;

impl Map {
    const SMALL: usize = 256;

    const NARROW: usize = 2048;

    const WIDER: usize = 16384;

    const WIDEST: usize = 131072;
}

// Whether no corner of the walk but the last comes twice. The map is lent blank, with the place of the start and the steps from
// place to place.
fn lone(chain: &[u8], from: usize, by: &[usize], map: &mut [u8]) -> bool
    requires { MapStore chain.now from by.now map.old }
    ensures { Lone chain.now result }
{
    let mut at = from;
    for &d in chain {
        if map[at] != 0 {
            return false;
        }
        map[at] = 1;
        at = at.wrapping_add(by[usize::from(d)]);
    }
    true
}

// The same with a map of SIZE corners.
fn lone_sized<const SIZE: usize>(chain: &[u8], from: usize, w: usize) -> bool
    requires { BoxFits chain.now from w SIZE × (SIZE ≤ 131072) }
    ensures { Lone chain.now result }
{
    let by = [1, w, usize::MAX, w.wrapping_neg()];
    let mut map = [0u8; SIZE];
    lone(chain, from, &by, &mut map)
}

// Whether a walk with this box is a room, whatever corner it starts from. The store is no larger than the threads of a chain of
// this length take.
pub fn is_room_in(chain: &[u8], b: WalkBox) -> bool
    requires { Boxable chain.now × Boxed chain.now b.width b.height b.from b.closed }
    ensures { Told chain.now result }
{
    if chain.len() < 4 || !b.closed {
        return false;
    }
    let w = b.width;
    let from = b.from;
    let size = w * b.height;
    if size <= Map::SMALL {
        return lone_sized::<{ Map::SMALL }>(chain, from, w);
    }
    if size <= Map::NARROW {
        return lone_sized::<{ Map::NARROW }>(chain, from, w);
    }
    if chain.len() > Columns::NARROW && size <= Map::WIDER {
        return lone_sized::<{ Map::WIDER }>(chain, from, w);
    }
    if chain.len() > Columns::WIDER && size <= Map::WIDEST {
        return lone_sized::<{ Map::WIDEST }>(chain, from, w);
    }
    room_threads::is_room(chain)
}

// Whether a walk is a room, whatever corner it starts from.
pub fn is_room(chain: &[u8]) -> bool
    requires { Boxable chain.now }
    ensures { Told chain.now result }
{
    is_room_in(chain, enclose(chain))
}
