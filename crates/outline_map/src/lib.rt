// A map of the corners of a walk: one byte for each corner, with a bit for each way whose edge was walked, and the path of the
// outline over it.
#![tactic(auto)]

ghost use Rattle.std.specs.Prelude.{◌≡◌, ◌+◌, ◌*◌, ◌/◌, ◌%◌, ◌^◌, ◌<◌, length, if◌then◌else◌, slice_index};
ghost use Rattle.grid.specs.declared.Corner.{Corner};
ghost use Rattle.grid.specs.Grid.{back};
ghost use Rattle.outline.specs.Outline.{onward};
ghost use Rattle.outline_path.specs.Ring.{Long, Written};
ghost use Rattle.outline_map.specs.Map.{way_on, MapBlank, Mapped};
ghost use Rattle.outline_map.specs.Ring.{IsMapRing, Fits, FitsBy};

use outline_path::away;

// The bit of a way.
fn bit(d: u8) -> u8
    requires { d < 4 }
    ensures { result ≡ 2 ^ d }
{
    1 << d
}

// The bit of the way back.
fn bit_back(d: u8) -> u8
    requires { d < 4 }
    ensures { result ≡ 2 ^ back d }
{
    1 << (d + 2) % 4
}

// Whether the edge of that way was walked.
fn has(m: u8, e: u8) -> bool
    requires { e < 4 }
    ensures { result ≡ way_on m e }
{
    (m >> e) % 2 == 1
}

// The place one step on.
fn go(by: &[usize], b: usize, d: u8) -> usize
    requires { d < length by.now }
    ensures { result ≡ (b + slice_index by.now d) % 2 ^ 64 }
{
    b.wrapping_add(by[usize::from(d)])
}

// The place of the start if places go column after column, from its place if they go row after row.
pub fn across(from: usize, width: usize, height: usize) -> usize
    requires { (0 < width) × (from % width * height + from / width < 268468225) }
    ensures { result ≡ from % width * height + from / width }
{
    from % width * height + from / width
}

// Marks both ways of each step in a map of zeros: at each corner the way in and the way out together. It answers the least place,
// which is that of the lowest of the leftmost corners.
pub fn mark(chain: &[u8], from: usize, by: &[usize], map: &mut [u8]) -> usize
    requires { MapBlank chain.now from by.now map.old }
    ensures { (c : Corner) → Mapped c chain.now by.now map.new result }
{
    let mut b = from;
    let mut home = from;
    let mut last = 0;
    for &d in chain {
        map[b] = map[b] | last | bit(d);
        b = go(by, b, d);
        home = home.min(b);
        last = bit_back(d);
    }
    map[b] |= last;
    home
}

// The direction by which the path goes on from a corner with these ways, if it came by d.
fn turn(m: u8, d: u8) -> u8
    requires { d < 4 }
    ensures { result ≡ onward (way_on m) d }
{
    let right = (d + 3) % 4;
    if has(m, right) {
        return right;
    }
    if has(m, d) {
        return d;
    }
    let left = (d + 1) % 4;
    if has(m, left) {
        return left;
    }
    (d + 2) % 4
}

// First east if that edge was walked and otherwise north.
pub fn first_way(map: &[u8], home: usize) -> u8
    requires { home < length map.now }
    ensures { result ≡ (if way_on (slice_index map.now home) 0 then 0 else 1) }
{
    if has(map[home], 0) { 0 } else { 1 }
}

// The map of a walk with steps, with the place and the way by which its outline starts. A plain struct: that it is such a map
// holds data, a place for each corner, and a ghost field holds facts alone.
#[derive(Clone, Copy)]
pub struct Ring<'a> {
    pub chain: &'a [u8],
    pub by: &'a [usize],
    pub map: &'a [u8],
    pub home: usize,
    pub first: u8,
}

// How many steps the outline has.
fn count(ring: &Ring<'_>) -> usize
    requires { IsMapRing ring.now }
    ensures { Long ring.now.chain.now result }
{
    // the fields are read once, not at each step
    let by = ring.by;
    let map = ring.map;
    let home = ring.home;
    let first = ring.first;
    let mut i = go(by, home, first);
    let mut d = turn(map[i], first);
    let mut n = 1;
    while away(i, d, home, first) {
        i = go(by, i, d);
        d = turn(map[i], d);
        n += 1;
    }
    n
}

// Whether the buffer is long enough for the outline. The outline has at most two steps for each step of the walk: if the
// buffer is long enough for these, they are not counted.
pub fn fits(ring: &Ring<'_>, size: usize) -> bool
    requires { IsMapRing ring.now }
    ensures { FitsBy ring.now.chain.now size result }
{
    2 * ring.chain.len() <= size || count(ring) <= size
}

// Writes the outline into a buffer that is long enough, and answers how many steps it has.
pub fn put(ring: &Ring<'_>, out: &mut [u8]) -> usize
    requires { IsMapRing ring.now × Fits ring.now.chain.now (length out.old) }
    ensures { Long ring.now.chain.now result × Written ring.now.chain.now out.old out.new }
{
    // the fields are read once, not at each step
    let by = ring.by;
    let map = ring.map;
    let home = ring.home;
    let first = ring.first;
    out[0] = first;
    let mut i = go(by, home, first);
    let mut d = turn(map[i], first);
    let mut n = 1;
    while away(i, d, home, first) {
        out[n] = d;
        i = go(by, i, d);
        d = turn(map[i], d);
        n += 1;
    }
    n
}
