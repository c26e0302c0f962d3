// Whether a room is convex: it is travelled clockwise from its lowest corner on the left, cut at the other three extremal
// corners, and each part is judged.
#![tactic(auto)]

ghost use Rattle.std.specs.Prelude.{◌≡◌, ◌&&◌, ◌+◌, ◌*◌, ◌<◌, ◌≤◌, length, get_or, Ok};
ghost use Rattle.grid.specs.declared.Corner.{Corner};
ghost use Rattle.grid.specs.Grid.{end_from};
ghost use Rattle.trace.specs.Verdict.{IsRoom};
ghost use Rattle.box_laws.specs.Box.{Boxable, box_width, box_height};
ghost use Rattle.box_walk.specs.Boxed.{Boxed};
ghost use Rattle.steps.specs.Chain.{as_walk_judged};
ghost use Rattle.convex.specs.Parts.{turned_by};
ghost use Rattle.convex.specs.Convex.{ConvexCall};
ghost use Rattle.convex_laws.specs.Way.{travelled};
ghost use Rattle.convex_laws.specs.Level.{convex_part};
ghost use Rattle.convex_laws.specs.Decide.{convex_at, convex_from, convex_of};
ghost use Rattle.convex_part.specs.Steps.{Digits, PartStore};
ghost use Rattle.convex_call.specs.Laid.{LaidTwice, Roomy};

use answer::{Limits, Refusal};
use box_walk::{WalkBox, enclose};
use columns::Columns;
use convex_part::judge;
use convex_place::{leftward, place};
use grid::Corner;
use room_map::is_room_in;

// A room of at most 256, of at most 2,048 and of any number of steps has fewer steps than this.
const NARROW: usize = Columns::NARROW + 1;

const WIDER: usize = Columns::WIDER + 1;

const WIDEST: usize = Limits::MOST_STEPS + 1;

// Step i of a chain, or of the chain backwards.
fn step_at(chain: &[u8], back: bool, i: usize) -> u8
    requires { Digits chain.now × (i < length chain.now) }
    ensures { result ≡ get_or (travelled back chain.now) i 0 }
{
    if back {
        return (chain[chain.len() - 1 - i] + 2) % 4;
    }
    chain[i]
}

// Lays the chain, or the chain backwards, down twice.
fn lay(chain: &[u8], back: bool, out: &mut [u8])
    requires { Digits chain.now × (2 * length chain.now ≤ length out.old) }
    ensures { LaidTwice (travelled back chain.now) (length chain.now) out.new
        (length chain.now) }
{
    let n = chain.len();
    for i in 0..n {
        let d = step_at(chain, back, i);
        out[i] = d;
        out[n + i] = d;
    }
}

// Whether a part and the next one are both convex, turned back to the first. The working store is lent.
fn half(part: &[u8], next: &[u8], turn: u8, ys: &mut [u16], s: &mut [u16]) -> bool
    requires { Digits part.now × Digits next.now × (turn < 3) × PartStore (length part.now) ys.old s.old
        × PartStore (length next.now) ys.old s.old }
    ensures { result ≡ (convex_part (turned_by turn part.now) && convex_part (turned_by (turn + 1) next.now)) }
{
    judge(part, turn, ys, s) && judge(next, turn + 1, ys, s)
}

// Whether a room that begins at its first extremal corner and has the others at places j, k and l is convex. The working store is
// lent.
fn by_parts(room: &[u8], j: usize, k: usize, l: usize, ys: &mut [u16], s: &mut [u16]) -> bool
    requires { Digits room.now × (l ≤ length room.now) × PartStore (length room.now) ys.old s.old }
    ensures { result ≡ convex_at j k l room.now }
{
    if k < j || l < k {
        return false;
    }
    half(&room[..j], &room[j..k], 0, ys, s) && half(&room[k..l], &room[l..], 2, ys, s)
}

// The same if the places are still to be found.
fn from_west(room: &[u8], ys: &mut [u16], s: &mut [u16]) -> bool
    requires { Boxable room.now × PartStore (length room.now) ys.old s.old }
    ensures { result ≡ convex_from room.now }
{
    let j = place(room, 1);
    let k = place(room, 2);
    let l = place(room, 3);
    by_parts(room, j, k, l, ys, s)
}

// Whether a room is convex. The working store is lent.
fn in_store(chain: &[u8], out: &mut [u8], ys: &mut [u16], s: &mut [u16]) -> bool
    requires { Roomy chain.now out.old ys.old s.old }
    ensures { (c : Corner) → end_from c chain.now ≡ c → result ≡ convex_of c chain.now }
{
    let n = chain.len();
    lay(chain, leftward(chain), out);
    let m = place(&out[..n], 0);
    from_west(&out[m..m + n], ys, s)
}

// Whether a room of fewer than N steps is convex, with a store for as many columns.
fn in_sized<const N: usize>(chain: &[u8]) -> bool
    requires { Boxable chain.now × (length chain.now < N) × (N ≤ 65536) }
    ensures { (c : Corner) → end_from c chain.now ≡ c → result ≡ convex_of c chain.now }
{
    let mut out = [[0u8; N]; 2];
    let mut ys = [0u16; N];
    let mut s = [0u16; N];
    in_store(chain, out.as_flattened_mut(), &mut ys, &mut s)
}

// Whether a room is convex, whatever corner it starts from.
fn is_convex(chain: &[u8]) -> bool
    requires { Boxable chain.now }
    ensures { (c : Corner) → end_from c chain.now ≡ c → result ≡ convex_of c chain.now }
{
    if chain.len() < NARROW {
        return in_sized::<NARROW>(chain);
    }
    if chain.len() < WIDER {
        return in_sized::<WIDER>(chain);
    }
    in_sized::<WIDEST>(chain)
}

// Whether a room is convex, whatever corner it starts from, if its box has this many columns and rows of corners. First its
// girth: each part of a convex room goes two ways only, so that its steps add up to the edges around its box. A room with more is
// not convex, and nothing is laid down.
fn decide(chain: &[u8], width: usize, height: usize) -> bool
    requires { Boxable chain.now × (width ≡ box_width chain.now) × (height ≡ box_height chain.now) }
    ensures { (c : Corner) → IsRoom c chain.now → result ≡ convex_of c chain.now }
{
    if 2 * (width + height) < chain.len() + 4 {
        return false;
    }
    is_convex(chain)
}

// Tells whether a walk with this box is a room, and whether it is convex, from any start that is not refused.
fn tell_in(chain: &[u8], b: WalkBox) -> Result<usize, Refusal>
    requires { Boxable chain.now × Boxed chain.now b.width b.height b.from b.closed }
    ensures { (c : Corner) → as_walk_judged c chain.now ≡ Ok tt → ConvexCall c chain.now result }
{
    if !is_room_in(chain, b) {
        return Err(Refusal::NotRoom);
    }
    Ok(usize::from(decide(chain, b.width, b.height)))
}

// Says whether a room is convex: 1 for yes and 0 for no.
pub fn tell(start: Corner, chain: &[u8]) -> Result<usize, Refusal>
    ensures { ConvexCall start chain.now result }
{
    chain_judge::judge(start, chain)?;
    tell_in(chain, enclose(chain))
}
