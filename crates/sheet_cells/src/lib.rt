// The cells of the sheet, written into a lent buffer: numbers in decimal, and bytes in hexadecimal.
#![tactic(auto)]

ghost use Rattle.std.specs.Prelude.{◌++◌, ◌+◌, ◌*◌, ◌≤◌, length};
ghost use Rattle.line_frame.specs.Hex.{hex_of};
ghost use Rattle.line_fields.specs.Put.{Wrote};
ghost use Rattle.sheet.specs.Decimal.{decimal_of, signed_of};
ghost use Rattle.sheet.specs.Sizes.{most_decimals, most_cell};
ghost use Rattle.sheet.specs.Entry.{cell_of, cells_of, empty_cells, refused_cells, hex_bytes};

use answer::Facts;
use line_fields::hex::{bits, spell};

// The cells.
#[derive(Clone, Copy)]
pub struct Cell;

impl Cell {
    // digits of a number of 64 bits at most
    const MOST_DECIMALS: usize = 20;

    // bytes of a cell at most: such a number and a comma
    pub const MOST: usize = Cell::MOST_DECIMALS + 1;
}

// Writes n in decimal, with at most k digits, from the place at on. Answers the place after it.
fn spell_decimal(out: &mut [u8], at: usize, k: usize, n: usize) -> usize
    requires { at + k ≤ length out.old }
    ensures { Wrote (decimal_of k n) at out.old result out.new }
{
    if k == 0 {
        return at;
    }
    if n < 10 {
        out[at] = 48 + n as u8;
        return at + 1;
    }
    let next = spell_decimal(out, at, k - 1, n / 10);
    out[next] = 48 + (n % 10) as u8;
    next + 1
}

// Writes n and a comma.
pub fn spell_cell(out: &mut [u8], at: usize, n: usize) -> usize
    requires { at + most_cell ≤ length out.old }
    ensures { Wrote (cell_of n) at out.old result out.new }
{
    let next = spell_decimal(out, at, Cell::MOST_DECIMALS, n);
    out[next] = 44;
    next + 1
}

// Writes x in decimal, with a minus sign if it is negative.
fn spell_signed(out: &mut [u8], at: usize, x: i32) -> usize
    requires { at + most_cell ≤ length out.old }
    ensures { Wrote (signed_of most_decimals x) at out.old result out.new }
{
    let b = bits(x) as usize;
    if b < 2147483648 {
        return spell_decimal(out, at, Cell::MOST_DECIMALS, b);
    }
    out[at] = 45;
    spell_decimal(out, at + 1, Cell::MOST_DECIMALS, 4294967296 - b)
}

// Writes two cells.
fn spell_two(out: &mut [u8], at: usize, v: usize, w: usize) -> usize
    requires { at + 2 * most_cell ≤ length out.old }
    ensures { Wrote (cell_of v ++ cell_of w) at out.old result out.new }
{
    let next = spell_cell(out, at, v);
    spell_cell(out, next, w)
}

// Writes a refusal's number and place and the facts, each with a comma after it.
pub fn spell_cells(out: &mut [u8], at: usize, number: usize, place: usize, f: Facts) -> usize
    requires { at + 9 * most_cell + 1 ≤ length out.old }
    ensures { Wrote (cells_of number place f) at out.old result out.new }
{
    let a = spell_two(out, at, number, place);
    let b = spell_two(out, a, answer::verdict_number(f.verdict), f.steps);
    let c = spell_two(out, b, f.nodes, f.corners);
    let d = spell_two(out, c, f.j, f.k);
    let e = spell_signed(out, d, f.area);
    out[e] = 44;
    e + 1
}

// Writes k cells with nothing in them.
fn spell_empty(out: &mut [u8], at: usize, k: usize) -> usize
    requires { at + k ≤ length out.old }
    ensures { Wrote (empty_cells k) at out.old result out.new }
{
    out[at..at + k].fill(44);
    at + k
}

// Writes a refusal's number and place, each with a comma after it, and no facts.
pub fn spell_refusal(out: &mut [u8], at: usize, number: usize, place: usize) -> usize
    requires { at + 2 * most_cell + 7 ≤ length out.old }
    ensures { Wrote (refused_cells number place) at out.old result out.new }
{
    let next = spell_two(out, at, number, place);
    spell_empty(out, next, 7)
}

// Writes the byte, in two digits.
fn spell_byte(out: &mut [u8], at: usize, b: u8) -> usize
    requires { at + 2 ≤ length out.old }
    ensures { Wrote (hex_of 2 b) at out.old result out.new }
{
    spell(out, at, usize::from(b), 2)
}

// Writes the bytes, two digits each.
pub fn spell_bytes(out: &mut [u8], at: usize, s: &[u8]) -> usize
    requires { at + 2 * length s.now ≤ length out.old }
    ensures { Wrote (hex_bytes s.now) at out.old result out.new }
{
    let mut next = at;
    for &b in s {
        next = spell_byte(out, next, b);
    }
    next
}
