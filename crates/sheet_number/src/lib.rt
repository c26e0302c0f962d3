// Lines of the sheet with their numbers, and its header.
#![tactic(auto)]

ghost use Rattle.std.specs.Prelude.{◌≡◌, cond, ◌++◌, ◌∷◌, [], suc, ◌+◌, ◌*◌, ◌<◌, ◌≤◌, eqb, length};
ghost use Rattle.lists.specs.Lists.{tally};
ghost use Rattle.line_fields.specs.Put.{Wrote};
ghost use Rattle.sheet.specs.Sizes.{most_cell};
ghost use Rattle.sheet.specs.Entry.{cell_of};
ghost use Rattle.sheet.specs.Sheet.{at_top, head_of, line_of};
ghost use Rattle.sheet_number.specs.Numbered.{most_piece, most_page, most_number, NumberedFrom, NumberedIs};

use line_convert::copy;
use sheet::Margin;
use sheet_cells::{Cell, spell_cell};

// How many bytes were written, and where the sheet stands then.
#[derive(Clone, Copy)]
pub struct Numbered {
    pub used: usize,
    pub margin: Margin,
}

impl Numbered {
    // bytes that are numbered at once at most
    pub const MOST_PIECE: usize = 16_384;

    // bytes of a page at most: the header, and a cell and a byte for each byte
    pub const MOST_PAGE: usize = 58 + (Cell::MOST + 1) * Numbered::MOST_PIECE;

    // the last number of a line from which pieces are numbered on
    pub const MOST_NUMBER: usize = 9_223_372_036_854_775_807;

    // Where a sheet stands before anything is written.
    pub fn top() -> Margin
        ensures { result ≡ at_top }
    {
        Margin {
            line: 0,
            begins: true,
        }
    }
}

// Writes the header at the start of out if nothing is written yet. Answers the place after it.
fn put_head(line: usize, out: &mut [u8]) -> usize
    requires { 58 ≤ length out.old }
    ensures { Wrote (head_of line) 0 out.old result out.new }
{
    if 0 < line {
        return 0;
    }
    copy(&sheet::HEADER, out, 0)
}

// The number of the line in which the next byte stands.
fn line_of(line: usize) -> usize
    ensures { result ≡ line_of line }
{
    line.max(1)
}

// Writes the byte, after the number n if a line begins with it.
fn put_byte(out: &mut [u8], at: usize, begins: bool, n: usize, b: u8) -> usize
    requires { at + suc most_cell ≤ length out.old }
    ensures { Wrote (cond begins (cell_of n) [] ++ (b ∷ [])) at out.old result out.new }
{
    if begins {
        let next = spell_cell(out, at, n);
        out[next] = b;
        return next + 1;
    }
    out[at] = b;
    at + 1
}

// The number of the next line after the byte b in line n.
fn number_after(n: usize, b: u8) -> usize
    requires { n < 18446744073709551615 }
    ensures { result ≡ n + tally (eqb b 10) }
{
    n + usize::from(b == 10)
}

// Writes the bytes s of the entries from the place at on, each line after its number, from the number first on; a line begins
// with them or goes on.
fn number_from(out: &mut [u8], at: usize, starts: bool, first: usize, s: &[u8]) -> Numbered
    requires s_in_bounds { at + suc most_cell * length s.now ≤ length out.old }
    requires s_bound { first + length s.now < 18446744073709551616 }
    ensures { NumberedFrom starts first s.now at out.old result out.new }
{
    let mut begins = starts;
    let mut n = first;
    let mut used = at;
    for &b in s {
        used = put_byte(out, used, begins, n, b);
        begins = b == 10;
        n = number_after(n, b);
    }
    let margin = Margin { line: n, begins };
    Numbered { used, margin }
}

// Writes the bytes s of the entries, if the sheet stands at m, at the start of out.
pub fn number(m: Margin, s: &[u8], out: &mut [u8]) -> Numbered
    requires s_len_bound { length s.now ≤ most_piece }
    requires out_len { length out.old ≡ most_page }
    requires line_le_most_number { m.line ≤ most_number }
    ensures { NumberedIs m s.now out.old result out.new }
{
    let used = put_head(m.line, out);
    let first = line_of(m.line);
    number_from(out, used, m.begins, first, s)
}
