// Sweeps over two lists of spans at once, from end to end of the spans of either, and writes the spans of all three parts. Ends
// are compared as keys.
#![tactic(auto)]

ghost use Rattle.std.specs.Prelude.{None, Some, IfSome, [], ◌∷◌, ◌≡◌, ◌+◌, ◌*◌, ◌%◌, ◌<◌, ◌≤◌, pos, nat_abs, ◌+ℤ◌, length};
ghost use Rattle.std.proofs.Math.IntN.{pred_ℤ};
ghost use Rattle.std.proofs.lemmas.List.Edits.{sets};
ghost use Rattle.answer.specs.Limits.{most_steps, farthest};
ghost use Rattle.grid.specs.Grid.{corner, panel_at};
ghost use Rattle.lists.specs.Lists.{tally};
ghost use Rattle.overlay.specs.declared.Part.{Part};
ghost use Rattle.overlay.specs.Call.{of_parts};
ghost use Rattle.overlay_laws.specs.Sweep.{part_has, end_at, odd, Numbers};
ghost use Rattle.overlay_sweep.specs.Keys.{KeyFits, last_key, end_key, key_or_last, sunk, corner_of, Added, Closed, Closable, in_parts};
ghost use Rattle.overlay_sweep.specs.Parts.{ends_in, Spanned, part_spans, Swept};

use grid::{Corner, Panel};
use overlay::{Measure, Measures};

// The key after the last end of a list: it is greater than any other, so that a list that has ended never leads. A number and no
// None, since the sweep takes the lesser of two keys.
const END: usize = 17179869184;

// The x of the end at place i, by that of its panel: every other end is one past a panel.
fn past(x: i32, i: usize) -> i32
    requires { nat_abs x ≤ 32767 }
    ensures { result ≡ x +ℤ pos (i % 2) }
{
    x + (i % 2) as i32
}

// The lower end of the edge before the panel p, or at every other place of the edge after it.
fn foot(p: Panel, i: usize) -> Corner
    requires { nat_abs p.0 ≤ 32767 }
    ensures { result ≡ corner (p.0 +ℤ pos (i % 2)) p.1 }
{
    let x = past(p.0, i);
    let y = p.1;
    Corner(x, y)
}

// The end at place i of the first list, if it is there.
fn first_end(list: &[i16], n: usize, i: usize) -> Option<Corner>
    requires { Numbers list.now n }
    ensures { (i < n → result ≡ Some (end_at list.now i)) × (n ≤ i → result ≡ None) }
{
    if i >= n {
        return None;
    }
    let row = 3 * (i / 2);
    let y = i32::from(list[row]);
    let x = i32::from(list[row + 1 + i % 2]);
    Some(foot(Panel(x, y), i))
}

// The end at place i of the second list, if it is there. A function of its own: clauses speak of a list of numbers, and the items
// of a type parameter are none.
fn second_end(list: &[i32], n: usize, i: usize) -> Option<Corner>
    requires { Numbers list.now n }
    ensures { (i < n → result ≡ Some (end_at list.now i)) × (n ≤ i → result ≡ None) }
{
    if i >= n {
        return None;
    }
    let row = 3 * (i / 2);
    let y = list[row];
    let x = list[row + 1 + i % 2];
    Some(foot(Panel(x, y), i))
}

// A coordinate of a walk's corner, counted from the least.
fn lift(z: i32) -> usize
    requires { nat_abs z ≤ farthest }
    ensures { (result ≡ nat_abs (z +ℤ pos 32768)) × (result ≤ 65536) }
{
    (z + 32768) as usize
}

// The key of a lower end.
fn key(at: Corner) -> usize
    requires { KeyFits at }
    ensures { result ≡ end_key at }
{
    let y = lift(at.1);
    let x = lift(at.0);
    y * 131072 + x
}

// The key of an end, if it is there.
fn key_of(end: Option<Corner>) -> usize
    requires { IfSome end KeyFits }
    ensures { result ≡ key_or_last end }
{
    match end {
        Some(at) => key(at),
        None => END,
    }
}

// One further, if it goes on.
fn further(i: usize, on: bool) -> usize
    requires { i ≤ most_steps }
    ensures { result ≡ i + tally on }
{
    i + usize::from(on)
}

// The coordinate that was lifted to n.
fn sunk(n: usize) -> i32
    requires { n ≤ 131072 }
    ensures { result ≡ sunk n }
{
    n as i32 - 32768
}

// The lower end that has this key.
fn end_of(key: usize) -> Corner
    requires { key ≤ last_key }
    ensures { result ≡ corner_of key }
{
    let x = sunk(key % 131072);
    let y = sunk(key / 131072);
    Corner(x, y)
}

// The column before x.
fn less(x: i32) -> i32
    requires { nat_abs x ≤ 262144 }
    ensures { result ≡ pred_ℤ x }
{
    x - 1
}

// The panel before the edge whose lower end is `at`.
fn panel_before(at: Corner) -> Panel
    requires { nat_abs at.0 ≤ 262144 }
    ensures { result ≡ panel_at (corner (pred_ℤ at.0) at.1) }
{
    let x = less(at.0);
    let y = at.1;
    Panel(x, y)
}

// The panel after it.
fn panel_behind(at: Corner) -> Panel
    ensures { result ≡ panel_at at }
{
    let x = at.0;
    let y = at.1;
    Panel(x, y)
}

// Writes the span from a panel to another of its row, if the buffer is long enough.
fn put(out: &mut [i32], o: usize, first: Panel, last: Panel)
    requires { o ≤ 6 * most_steps }
    ensures { o + 2 < length out.old
        → out.new ≡ sets out.old o (first.1 ∷ first.0 ∷ last.0 ∷ []) }
{
    let y = first.1;
    let west = first.0;
    let east = last.0;
    if o + 2 < out.len() {
        out[o] = y;
        out[o + 1] = west;
        out[o + 2] = east;
    }
}

// Writes the span between two ends of one row after those that were counted, if the buffer is long enough, and counts it.
fn put_span(out: &mut [i32], m: Measure, from: usize, to: usize) -> Measure
    requires { (m.spans ≤ 2 * most_steps) × (m.panels ≤ 2 * most_steps * last_key) × (from ≤ to) × (to ≤ last_key) }
    ensures { Added from to m out.old result out.new }
{
    let spans = m.spans;
    put(
        out,
        3 * spans,
        panel_behind(end_of(from)),
        panel_before(end_of(to)),
    );
    Measure {
        panels: m.panels + (to - from),
        spans: spans + 1,
    }
}

// Closes the span of the part that lies after i ends of the first list and j of the second, if there is such a part.
fn close(
    i: usize,
    j: usize,
    from: usize,
    to: usize,
    m: Measures,
    first: &mut [i32],
    second: &mut [i32],
    both: &mut [i32],
) -> Measures
    requires { Closable i j from to m }
    ensures { (k : Part) → Closed (part_has k (odd i) (odd j)) from to (in_parts m k)
        (of_parts first.old second.old both.old k) (in_parts result k)
        (of_parts first.new second.new both.new k) }
{
    if i % 2 == 1 {
        if j % 2 == 1 {
            let both = put_span(both, m.both, from, to);
            return Measures { both, ..m };
        }
        let first = put_span(first, m.first, from, to);
        return Measures { first, ..m };
    }
    if j % 2 == 1 {
        let second = put_span(second, m.second, from, to);
        return Measures { second, ..m };
    }
    m
}

// Writes the spans of the three parts of two lists of spans, as far as the buffers are long enough, and counts them and their
// panels.
pub fn sweep(
    a: &[i16],
    b: &[i32],
    first: &mut [i32],
    second: &mut [i32],
    both: &mut [i32],
) -> Measures
    requires { Spanned a.now (ends_in a.now) × Spanned b.now (ends_in b.now) }
    ensures { (k : Part) → Swept (part_spans a.now (ends_in a.now) b.now (ends_in b.now) k)
        (of_parts first.old second.old both.old k) (in_parts result k)
        (of_parts first.new second.new both.new k) }
{
    let none = Measure {
        panels: 0,
        spans: 0,
    };
    let mut m = Measures {
        first: none,
        second: none,
        both: none,
    };
    let na = a.len() / 3 * 2;
    let nb = b.len() / 3 * 2;
    let mut i = 0;
    let mut j = 0;
    let mut last = 0;
    while i + j < na + nb {
        let p = key_of(first_end(a, na, i));
        let q = key_of(second_end(b, nb, j));
        let next = p.min(q);
        m = close(i, j, last, next, m, first, second, both);
        i = further(i, p == next);
        j = further(j, q == next);
        last = next;
    }
    m
}
