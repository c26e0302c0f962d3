// Writes spans of panels, row by row, from buckets by row.
#![tactic(auto)]

ghost use Rattle.std.specs.Prelude.{◌≡◌, [], ◌∷◌, ◌+◌, ◌<◌, ◌≤◌, pos, nat_abs, ◌+ℤ◌, ◌-ℤ◌, length};
ghost use Rattle.std.proofs.Math.IntN.{pred_ℤ};
ghost use Rattle.std.proofs.lemmas.List.Edits.{sets};
ghost use Rattle.answer.specs.Limits.{most_start};
ghost use Rattle.grid.specs.Grid.{corner, panel_at};
ghost use Rattle.column_laws.specs.Columns.{top};
ghost use Rattle.row_bucket_laws.specs.Buckets.{Line, LineDone, Sheet, SheetDone};

use grid::{Corner, Panel};

// Writes the span from a panel to another of its row.
fn put_panels(out: &mut [i32], o: usize, first: Panel, last: Panel)
    requires { o + 2 < length out.old }
    ensures { out.new ≡ sets out.old o (first.1 ∷ first.0 ∷ last.0 ∷ []) }
{
    out[o] = first.1;
    out[o + 1] = first.0;
    out[o + 2] = last.0;
}

// The corner where a row begins. Panels up to 65,535 steps east of it are counted from it.
#[derive(Clone, Copy)]
struct Base {
    at: Corner,
    ghost near: { nat_abs at.0 ≤ most_start + 65535 },
}

impl Base {
    // The panel after the edge that stands n steps east.
    fn first_panel(self, n: u16) -> Panel
        ensures { result ≡ panel_at (corner (self.at.0 +ℤ pos n) self.at.1) }
    {
        Panel(self.at.0 + i32::from(n), self.at.1)
    }

    // The panel before it.
    fn last_panel(self, n: u16) -> Panel
        ensures { result ≡ panel_at (corner (pred_ℤ (self.at.0 +ℤ pos n)) self.at.1) }
    {
        Panel(self.at.0 + i32::from(n) - 1, self.at.1)
    }

    // Writes the span between the edges a and b of the row.
    fn put_span(self, out: &mut [i32], o: usize, a: u16, b: u16)
        requires { o + 2 < length out.old }
        ensures { out.new
            ≡ sets out.old o (self.at.1 ∷ (self.at.0 +ℤ pos a) ∷ pred_ℤ (self.at.0 +ℤ pos b) ∷ []) }
    {
        put_panels(out, o, self.first_panel(a), self.last_panel(b));
    }

    // Writes the spans of the row from number o on, and answers where they end.
    fn put_row(self, out: &mut [i32], o: usize, first: u16, next: &[u16], at: &[u16]) -> usize
        requires { Line next.now at.now o (length out.old) first }
        ensures { LineDone next.now at.now self.at first out.old o result out.new }
    {
        let mut p = usize::from(first);
        let mut to = o;
        while p > 0 {
            let q = usize::from(next[p - 1]);
            self.put_span(out, to, at[p - 1], at[q - 1]);
            to += 3;
            p = usize::from(next[q - 1]);
        }
        to
    }
}

// The coordinate at place n, if z stands at m.
fn shifted(z: i32, m: u16, n: usize) -> i32
    requires { (nat_abs z ≤ most_start) × (n ≤ top) }
    ensures { result ≡ (z -ℤ pos m) +ℤ pos n }
{
    z - i32::from(m) + n as i32
}

// Where row h begins, if start stands at m.
fn row_base(start: Corner, m: u16, h: usize) -> Corner
    requires { (nat_abs start.0 ≤ most_start) × (nat_abs start.1 ≤ most_start) × (h ≤ top) }
    ensures { result ≡ corner ((start.0 -ℤ pos m) +ℤ pos 0) ((start.1 -ℤ pos m) +ℤ pos h) }
{
    Corner(shifted(start.0, m, 0), shifted(start.1, m, h))
}

// Writes the spans of all rows below `end`.
pub fn put_rows(
    start: Corner,
    m: u16,
    end: usize,
    row: &[u16],
    next: &[u16],
    at: &[u16],
    out: &mut [i32],
)
    requires { Sheet end next.now at.now row.now (length out.old) × (nat_abs start.0 ≤ most_start)
        × (nat_abs start.1 ≤ most_start) × (end ≤ top) }
    ensures { SheetDone start m end next.now at.now row.now
        out.old out.new }
{
    let mut o = 0;
    for h in 0..end {
        let corner = row_base(start, m, h);
        let base = Base { at: corner };
        o = base.put_row(out, o, row[h], next, at);
    }
}
