// The different corners of a walk and the walked edges between them: corner i has the words 4 * i to 4 * i + 3 of links, one for
// each direction. Each is 1 + the number of the corner that a walked edge leads to, or 0.
#![tactic(auto)]

ghost use Rattle.std.specs.Prelude.{◌≡◌, ◌+◌, ◌*◌, ◌<◌, ◌≤◌};
ghost use Rattle.grid.specs.declared.Corner.{Corner};
ghost use Rattle.grid.specs.Grid.{back};
ghost use Rattle.outline_laws.specs.Keys.{column_rows, key_after};
ghost use Rattle.outline_links.specs.Store.{StepLinked, RoomForMore};
ghost use Rattle.outline_links.specs.Built.{Blank, Built};

use answer::Limits;
use outline_roster::{Seat, enter};

// The rows of a column: the start's, and as many before and after it as a walk has steps.
const ROWS: u32 = 2 * Limits::MOST_STEPS as u32 + 1;

// The key of the start, which stands in the middle row of the middle column.
const START: u32 = (ROWS + 1) * Limits::MOST_STEPS as u32;

// The direction back.
fn opposite(d: u8) -> u8
    requires { d < 4 }
    ensures { result ≡ back d }
{
    (d + 2) % 4
}

// The key one step on.
fn key_after(k: u32, d: u8) -> u32
    requires { (column_rows ≤ k) × (k < column_rows * column_rows) }
    ensures { result ≡ key_after k d }
{
    match d {
        0 => k + ROWS,
        1 => k + 1,
        2 => k - ROWS,
        _ => k - 1,
    }
}

// One step in direction d, from corner `node` to the corner with the key k: along a link, or with the two words of a new one.
fn advance(
    keys: &mut [u32],
    kids: &mut [u16],
    links: &mut [u16],
    used: usize,
    node: usize,
    k: u32,
    d: u8,
) -> Seat
    requires { RoomForMore keys.old kids.old links.old used node × (d < 4) }
    ensures { StepLinked keys.old kids.old links.old used node k d keys.new
        kids.new links.new result.node result.used }
{
    let at = 4 * node + usize::from(d);
    let l = usize::from(links[at]);
    if l != 0 {
        return Seat { node: l - 1, used };
    }
    let s = enter(keys, kids, used, k);
    let to = 4 * s.node + usize::from(opposite(d));
    links[at] = (s.node + 1) as u16;
    links[to] = (node + 1) as u16;
    s
}

// The corners of a walk and their links, wherever it starts. It answers the number of the lowest of the leftmost corners.
pub fn build(chain: &[u8], keys: &mut [u32], kids: &mut [u16], links: &mut [u16]) -> usize
    requires { Blank chain.now keys.old kids.old links.old }
    ensures { (c : Corner) → Built c chain.now links.new result }
{
    let mut k = START;
    keys[0] = k;
    let mut least = k;
    let mut home = 0;
    let mut used = 1;
    let mut node = 0;
    for &d in chain {
        k = key_after(k, d);
        let s = advance(keys, kids, links, used, node, k, d);
        used = s.used;
        node = s.node;
        if k < least {
            least = k;
            home = node;
        }
    }
    home
}
