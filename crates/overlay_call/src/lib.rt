// Lists the panels of two rooms that are in the first only, in the second only and in both: the call.
#![tactic(auto)]

ghost use Rattle.std.specs.Prelude.{◌≡◌, ◌*◌, ◌/◌, ◌≤◌, nat_abs, length, take};
ghost use Rattle.answer.specs.Limits.{most_steps};
ghost use Rattle.overlay.specs.Call.{of_parts, OverlayCall};
ghost use Rattle.overlay_call.specs.Lists.{AllFit, ListsSpans};

use answer::{Limits, Refusal};
use columns::Columns;
use grid::Corner;
use overlay::Measures;
use overlay_parts::put_parts;
use room_judge::judge;
use row_buckets::vertical;
use row_call::Room;

// How many numbers the spans of a room have at most, if it has 256 steps, 2,048, or as many as a room can have.
const NARROW: usize = 3 * (Columns::NARROW / 2);

const WIDER: usize = 3 * (Columns::WIDER / 2);

const WIDEST: usize = 3 * (Limits::MOST_STEPS / 2);

// The same number in 16 bits.
fn short(x: i32) -> i16
    requires { nat_abs x ≤ 32767 }
    ensures { result ≡ x }
{
    x as i16
}

// Copies numbers into 16 bits.
fn narrow(list: &[i32], out: &mut [i16])
    requires { AllFit list.now × (length list.now ≤ length out.old) }
    ensures { take (length list.now) out.new ≡ list.now }
{
    for k in 0..list.len() {
        out[k] = short(list[k]);
    }
}

// Writes the spans of a room, and answers how many numbers they have.
fn fill(room: &Room<'_>, list: &mut [i32]) -> usize
    requires { 3 * (length room.now.chain.now / 2) ≤ length list.old }
    ensures { ListsSpans room.now.start room.now.chain.now list.new result }
{
    let n = 3 * (vertical(room.chain) / 2);
    row_call::write(room, list);
    n
}

// The same in 16 bits, by way of the other list.
fn fill_short(room: &Room<'_>, out: &mut [i16], list: &mut [i32]) -> usize
    requires { (3 * (length room.now.chain.now / 2) ≤ length out.old) × (3 * (length room.now.chain.now / 2) ≤ length list.old) }
    ensures { ListsSpans room.now.start room.now.chain.now out.new result }
{
    let n = fill(room, list);
    narrow(&list[..n], out);
    n
}

// Lists the parts of two rooms. The working store is lent.
fn list_in(
    a: &mut [i16],
    b: &mut [i32],
    one: &Room<'_>,
    other: &Room<'_>,
    first: &mut [i32],
    second: &mut [i32],
    both: &mut [i32],
) -> Result<Measures, Refusal>
    requires { (3 * (length one.now.chain.now / 2) ≤ length a.old) × (3 * (length one.now.chain.now / 2) ≤ length b.old)
        × (3 * (length other.now.chain.now / 2) ≤ length b.old) }
    ensures { OverlayCall one.now.start one.now.chain.now other.now.start other.now.chain.now
        (of_parts first.old second.old both.old) result
        (of_parts first.new second.new both.new) }
{
    let na = fill_short(one, a, b);
    let nb = fill(other, b);
    put_parts(&a[..na], &b[..nb], first, second, both)
}

// Lists the parts of two rooms whose spans have at most N numbers each.
fn list_sized<const N: usize>(
    one: &Room<'_>,
    other: &Room<'_>,
    first: &mut [i32],
    second: &mut [i32],
    both: &mut [i32],
) -> Result<Measures, Refusal>
    requires { (3 * (length one.now.chain.now / 2) ≤ N)
        × (3 * (length other.now.chain.now / 2) ≤ N) × (N ≤ 3 * most_steps) }
    ensures { OverlayCall one.now.start one.now.chain.now other.now.start other.now.chain.now
        (of_parts first.old second.old both.old) result
        (of_parts first.new second.new both.new) }
{
    let mut a = [0i16; N];
    let mut b = [0i32; N];
    list_in(&mut a, &mut b, one, other, first, second, both)
}

// Lists the parts of two rooms in a store that is not much larger than it needs: to clear it takes time.
fn list_rooms(
    one: &Room<'_>,
    other: &Room<'_>,
    first: &mut [i32],
    second: &mut [i32],
    both: &mut [i32],
) -> Result<Measures, Refusal>
    ensures { OverlayCall one.now.start one.now.chain.now other.now.start other.now.chain.now
        (of_parts first.old second.old both.old) result
        (of_parts first.new second.new both.new) }
{
    let longer = one.chain.len().max(other.chain.len());
    if longer <= Columns::NARROW {
        return list_sized::<NARROW>(one, other, first, second, both);
    }
    if longer <= Columns::WIDER {
        return list_sized::<WIDER>(one, other, first, second, both);
    }
    list_sized::<WIDEST>(one, other, first, second, both)
}

// Writes the spans of the panels that are in the first room only, in the second only and in both, each list into its buffer, and
// answers how many panels and spans each has.
pub fn list(
    s: Corner,
    ds: &[u8],
    t: Corner,
    es: &[u8],
    first: &mut [i32],
    second: &mut [i32],
    both: &mut [i32],
) -> Result<Measures, Refusal>
    ensures { OverlayCall s ds.now t es.now
        (of_parts first.old second.old both.old) result
        (of_parts first.new second.new both.new) }
{
    judge(s, ds)?;
    judge(t, es)?;
    let one = Room {
        start: s,
        chain: ds,
    };
    let other = Room {
        start: t,
        chain: es,
    };
    list_rooms(&one, &other, first, second, both)
}
