// Writes the parts of two lists of spans, in the first only, in the second only and in both, unless a buffer is too short.
#![tactic(auto)]

ghost use Rattle.std.specs.Prelude.{true, ◌≡◌, ◌≤◌};
ghost use Rattle.overlay.specs.Call.{of_parts, measures_of};
ghost use Rattle.overlay_sweep.specs.Parts.{ends_in, Spanned, part_spans};
ghost use Rattle.overlay_parts.specs.Parts.{HaveRoom, PartsCall};

use answer::Refusal;
use overlay::Measures;
use overlay_sweep::sweep;

// Whether each of three buffers has at least `most` numbers.
fn enough(most: usize, first: usize, second: usize, both: usize) -> bool
    ensures { result ≡ true → (most ≤ first) × (most ≤ second) × (most ≤ both) }
{
    most <= first && most <= second && most <= both
}

// How many panels and spans the parts have, by a sweep that writes no span.
fn measure(a: &[i16], b: &[i32]) -> Measures
    requires { Spanned a.now (ends_in a.now) × Spanned b.now (ends_in b.now) }
    ensures { result ≡ measures_of (part_spans a.now (ends_in a.now) b.now (ends_in b.now)) }
{
    let mut f = [0i32; 1];
    let mut g = [0i32; 1];
    let mut h = [0i32; 1];
    sweep(a, b, &mut f, &mut g, &mut h)
}

// Writes the three lists; each buffer is long enough.
fn put_all(
    a: &[i16],
    b: &[i32],
    first: &mut [i32],
    second: &mut [i32],
    both: &mut [i32],
) -> Result<Measures, Refusal>
    requires { Spanned a.now (ends_in a.now) × Spanned b.now (ends_in b.now)
        × HaveRoom (part_spans a.now (ends_in a.now) b.now (ends_in b.now)) (of_parts first.old second.old both.old) }
    ensures { PartsCall (part_spans a.now (ends_in a.now) b.now (ends_in b.now))
        (of_parts first.old second.old both.old) result
        (of_parts first.new second.new both.new) }
{
    let m = sweep(a, b, first, second, both);
    Ok(m)
}

// Writes the three lists, unless one of them is too long for its buffer. None has more numbers than the two lists together: so
// none is measured if each buffer is long enough for that many.
pub fn put_parts(
    a: &[i16],
    b: &[i32],
    first: &mut [i32],
    second: &mut [i32],
    both: &mut [i32],
) -> Result<Measures, Refusal>
    requires { Spanned a.now (ends_in a.now) × Spanned b.now (ends_in b.now) }
    ensures { PartsCall (part_spans a.now (ends_in a.now) b.now (ends_in b.now))
        (of_parts first.old second.old both.old) result
        (of_parts first.new second.new both.new) }
{
    if enough(a.len() + b.len(), first.len(), second.len(), both.len()) {
        return put_all(a, b, first, second, both);
    }
    let m = measure(a, b);
    let f = m.first;
    let g = m.second;
    let h = m.both;
    if first.len() < 3 * f.spans {
        return Err(Refusal::SpanRoom);
    }
    if second.len() < 3 * g.spans {
        return Err(Refusal::SpanRoom);
    }
    if both.len() < 3 * h.spans {
        return Err(Refusal::SpanRoom);
    }
    put_all(a, b, first, second, both)
}
