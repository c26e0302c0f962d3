// Lists the rows of a room: the call. The vertical edges of a row, from west to east and two by two, are its spans.
#![tactic(auto)]

ghost use Rattle.std.specs.Prelude.{◌≡◌, ◌+◌, ◌*◌, ◌≤◌, Ok, length};
ghost use Rattle.std.proofs.lemmas.List.Edits.{sets};
ghost use Rattle.answer.specs.Limits.{most_steps};
ghost use Rattle.room.specs.Room.{as_room_judged};
ghost use Rattle.row.specs.Rows.{span_numbers};
ghost use Rattle.row.specs.Call.{RowsCall};
ghost use Rattle.row_laws.specs.Feet.{rows_of};
ghost use Rattle.row_call.specs.Store.{RowStore};

use answer::{Limits, Refusal};
use columns::Columns;
use grid::Corner;
use row_buckets::{gather, lay, vertical};
use row_spans::put_rows;

// The sizes of the stores in columns: two more than the steps of the longest walks that they are for.
const NARROW_STORE: usize = Columns::NARROW + 2;

const WIDER_STORE: usize = Columns::WIDER + 2;

const WIDEST_STORE: usize = Limits::MOST_STEPS + 2;

// A start and a chain that were judged to be a room.
#[derive(Clone, Copy)]
pub struct Room<'a> {
    pub start: Corner,
    pub chain: &'a [u8],
    ghost judged: { as_room_judged start chain.now ≡ Ok tt },
}

// Writes the rows of a room. The working store is lent.
fn list_in(
    room: &Room<'_>,
    m: u16,
    head: &mut [u16],
    row: &mut [u16],
    next: &mut [u16],
    at: &mut [u16],
    out: &mut [i32],
)
    requires { RowStore (length room.now.chain.now) m head.old row.old next.old at.old
        × (3 * length (rows_of room.now.start room.now.chain.now) ≤ length out.old) }
    ensures { out.new ≡ sets out.old 0 (span_numbers (rows_of room.now.start room.now.chain.now)) }
{
    lay(room.chain, m, head, next, at);
    let end = 2 * usize::from(m);
    gather(end, head, next, at, row);
    put_rows(room.start, m, end, row, next, at, out);
}

// The same with a store for N columns and for as many places.
fn list_sized<const N: usize>(room: &Room<'_>, out: &mut [i32])
    requires { (length room.now.chain.now + 2 ≤ N) × (N ≤ most_steps + 2)
        × (3 * length (rows_of room.now.start room.now.chain.now) ≤ length out.old) }
    ensures { out.new ≡ sets out.old 0 (span_numbers (rows_of room.now.start room.now.chain.now)) }
{
    let mut head = [0u16; N];
    let mut row = [0u16; N];
    let mut next = [0u16; N];
    let mut at = [0u16; N];
    let m = room_threads::start(room.chain.len());
    list_in(room, m, &mut head, &mut row, &mut next, &mut at, out);
}

// The same with a store that is not much larger than it needs: to clear it takes time.
pub fn write(room: &Room<'_>, out: &mut [i32])
    requires { 3 * length (rows_of room.now.start room.now.chain.now) ≤ length out.old }
    ensures { out.new ≡ sets out.old 0 (span_numbers (rows_of room.now.start room.now.chain.now)) }
{
    let steps = room.chain.len();
    if steps <= Columns::NARROW {
        list_sized::<NARROW_STORE>(room, out);
    } else if steps <= Columns::WIDER {
        list_sized::<WIDER_STORE>(room, out);
    } else {
        list_sized::<WIDEST_STORE>(room, out);
    }
}

// Writes the rows of a room, unless out is too short.
fn list_room(room: &Room<'_>, out: &mut [i32]) -> Result<usize, Refusal>
    ensures { RowsCall room.now.start room.now.chain.now out.old result out.new }
{
    let n = vertical(room.chain) / 2;
    if out.len() < 3 * n {
        return Err(Refusal::SpanRoom);
    }
    write(room, out);
    Ok(n)
}

// Writes row, first and last panel of each span of the panels inside a room, rows from south to north and in a row from west to
// east, and answers how many spans there are.
pub fn list(start: Corner, chain: &[u8], out: &mut [i32]) -> Result<usize, Refusal>
    ensures { RowsCall start chain.now out.old result out.new }
{
    room_judge::judge(start, chain)?;
    let room = Room { start, chain };
    list_room(&room, out)
}
