// Whether two places of a walk are one corner: each column's thread is followed back, and each height on it is stamped.
#![tactic(auto)]

ghost use Rattle.std.specs.Prelude.{◌≡◌, true, ℕ, ◌+◌, ◌*◌, ◌≤◌, ◌<◌, length, get_or};
ghost use Rattle.column_laws.specs.Columns.{middle};
ghost use Rattle.room_thread_laws.specs.Threads.{Leads, ThreadFollowed, Parted, Stays, Laid, ThreadStore, Scattered, Closes, Told};

use columns::{Columns, across, upward};

// The sizes of the working stores: two more than the steps of a walk that fits.
const NARROW: usize = Columns::NARROW + 2;

const WIDER: usize = Columns::WIDER + 2;

const WIDEST: usize = Columns::MIDDLE + 2;

// Follows the thread that ends at place `last`, counted from 1, and answers whether no height on it comes twice. Each gets the
// stamp. A thread ends at 0, and not at a None: so a link takes 16 bits.
fn follow(tag: u16, last: u16, next: &[u16], hs: &[u16], stamps: &mut [u16]) -> bool
    requires { Leads next.now hs.now (length stamps.old) × (last ≤ length next.now) }
    ensures { ThreadFollowed next.now hs.now stamps.old tag last result
        stamps.new }
{
    let mut p = usize::from(last);
    while p > 0 {
        let h = usize::from(hs[p - 1]);
        if stamps[h] == tag {
            return false;
        }
        stamps[h] = tag;
        p = usize::from(next[p - 1]);
    }
    true
}

// Follows the thread of every column, and answers whether no two places have one column and one height.
fn apart(head: &[u16], next: &[u16], hs: &[u16], stamps: &mut [u16]) -> bool
    requires { Leads next.now hs.now (length stamps.old) × ((c : ℕ) → get_or head.now c 0 ≤ length next.now)
        × (length head.now < 65536) × ((h : ℕ) → get_or stamps.old h 0 ≡ 0) }
    ensures { Parted head.now next.now hs.now result }
{
    for (c, &last) in head.iter().enumerate() {
        if !follow((c + 1) as u16, last, next, hs, stamps) {
            return false;
        }
    }
    true
}

// Threads the places of the walk that starts in column and height m, all but its last, and keeps the height of each. What a step
// adds to the column and to the height stands in two tables.
fn lay(chain: &[u8], m: u16, head: &mut [u16], next: &mut [u16], hs: &mut [u16])
    requires { Stays chain.now m (length head.old) × (length chain.now ≤ length next.old)
        × (length chain.now ≤ length hs.old) × (length chain.now < 65536) × ((c : ℕ) → get_or head.old c 0 ≡ 0)
        × ((j : ℕ) → get_or next.old j 0 ≡ 0) × ((j : ℕ) → get_or hs.old j 0 ≡ 0) × ((j : ℕ) → get_or chain.now j 0 < 4) }
    ensures { Laid chain.now m (length chain.now) head.new
        next.new hs.new }
{
    let by = Columns::EAST;
    let up = Columns::NORTH;
    let mut x = u32::from(m);
    let mut y = m;
    for (i, &d) in chain.iter().enumerate() {
        hs[i] = y;
        next[i] = head[x as usize];
        head[x as usize] = (i + 1) as u16;
        x = across(x, &by, d);
        y = upward(y, &up, d);
    }
}

// Whether no two places of the walk that starts in column and height m, apart from its last, are one. Only the columns that it
// can reach are looked at. The working store is lent.
fn scattered(
    chain: &[u8],
    m: u16,
    head: &mut [u16],
    next: &mut [u16],
    hs: &mut [u16],
    stamps: &mut [u16],
) -> bool
    requires { ThreadStore chain.now m head.old next.old hs.old stamps.old × (length chain.now < 65536)
        × ((j : ℕ) → get_or chain.now j 0 < 4) × Stays chain.now m (2 * m) × (2 * m ≤ length head.old) }
    ensures { Scattered chain.now m result }
{
    lay(chain, m, head, next, hs);
    apart(&head[..2 * usize::from(m)], next, hs, stamps)
}

// Where the walk starts in the working store: a closed walk stays within half its steps of it.
pub fn start(n: usize) -> u16
    requires { n ≤ middle }
    ensures { (n < 2 * result) × (2 * result ≤ n + 2) }
{
    (n / 2 + 1) as u16
}

// Whether a closed walk of at most SIZE - 2 steps is a room.
fn told_sized<const SIZE: usize>(chain: &[u8]) -> bool
    requires { (4 ≤ length chain.now) × (length chain.now + 2 ≤ SIZE) × (SIZE ≤ middle + 2) × Closes chain.now true
        × ((j : ℕ) → get_or chain.now j 0 < 4) }
    ensures { Told chain.now result }
{
    let mut head = [0u16; SIZE];
    let mut next = [0u16; SIZE];
    let mut hs = [0u16; SIZE];
    let mut stamps = [0u16; SIZE];
    let m = start(chain.len());
    scattered(chain, m, &mut head, &mut next, &mut hs, &mut stamps)
}

// Whether a closed walk of four steps or more is a room, whatever corner it starts from: no two of its corners but its ends are
// one.
pub fn is_room(chain: &[u8]) -> bool
    requires { (4 ≤ length chain.now) × (length chain.now ≤ middle) × Closes chain.now true
        × ((j : ℕ) → get_or chain.now j 0 < 4) }
    ensures { Told chain.now result }
{
    if chain.len() <= Columns::NARROW {
        return told_sized::<NARROW>(chain);
    }
    if chain.len() <= Columns::WIDER {
        return told_sized::<WIDER>(chain);
    }
    told_sized::<WIDEST>(chain)
}
