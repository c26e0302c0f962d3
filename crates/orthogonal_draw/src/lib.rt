// The outline of a pile of rows of blocks, measured and written. A list has the left end of each row, and another the right end
// counted from east, from a column `span`.
#![tactic(auto)]

ghost use Rattle.std.specs.Prelude.{◌≡◌, [], ◌∷◌, ◌++◌, ℕ, ◌+◌, ◌-◌, ◌<◌, ◌≤◌, length, replicate, get_or};
ghost use Rattle.std.proofs.lemmas.List.Edits.{sets};
ghost use Rattle.orthogonal_chain_laws.specs.Chain.{sideways, home_row, blocks_from, chain_from_home};
ghost use Rattle.orthogonal_draw.specs.Sides.{left_in, right_in, descent, ascent};

// The lowest of the rows whose end is least.
pub fn home_row(a: &[u16]) -> usize
    requires { 0 < length a.now }
    ensures { (result ≡ home_row (left_in a.now) (length a.now - 1)) × (result < length a.now) }
{
    let mut home: usize = 0;
    for q in 1..a.len() {
        if a[q] < a[home] {
            home = q;
        }
    }
    home
}

// How many blocks the rows have.
pub fn count(lo: &[u16], hi: &[u16], span: usize) -> usize
    requires { (length lo.now ≤ length hi.now) × (length lo.now < 65536) × (span < 65536)
        × ((q : ℕ) → q < length lo.now → get_or lo.now q 0 + get_or hi.now q 0 ≤ span) }
    ensures { result ≡ blocks_from (left_in lo.now) (right_in span hi.now) 0 (length lo.now) }
{
    let mut n: usize = 0;
    for (q, &west) in lo.iter().enumerate() {
        n += span - usize::from(hi[q]) - usize::from(west);
    }
    n
}

// Writes k steps d from place `at` on.
fn run(out: &mut [u8], at: usize, k: usize, d: u8)
    requires { at + k ≤ length out.old }
    ensures { out.new ≡ sets out.old at (replicate k d) }
{
    out[at..at + k].fill(d);
}

// Writes the steps from column x to column `to` from place `at` on, and answers where they end.
fn along(out: &mut [u8], at: usize, x: usize, to: usize) -> usize
    requires { at + length (sideways x to) ≤ length out.old }
    ensures { (out.new ≡ sets out.old at (sideways x to)) × (result ≡ at + length (sideways x to)) }
{
    if x < to {
        run(out, at, to - x, 0);
        return at + (to - x);
    }
    run(out, at, x - to, 2);
    at + (x - to)
}

// Writes them and then a step d along a row.
fn leg(out: &mut [u8], at: usize, x: usize, to: usize, d: u8) -> usize
    requires { at + length (sideways x to) < length out.old }
    ensures { (out.new ≡ sets out.old at (sideways x to ++ (d ∷ [])))
        × (result ≡ at + length (sideways x to) + 1) }
{
    let end = along(out, at, x, to);
    out[end] = d;
    end + 1
}

// Writes the left side from column x down the rows before `end`, the last of them row `first`.
fn fall(out: &mut [u8], from: usize, x: usize, lo: &[u16], first: usize, end: usize) -> usize
    requires { (first ≤ end) × (end ≤ length lo.now)
        × (from + length (descent (left_in lo.now) x first (end - first)) ≤ length out.old) }
    ensures { (out.new ≡ sets out.old from (descent (left_in lo.now) x first (end - first)))
        × (result ≡ from + length (descent (left_in lo.now) x first (end - first))) }
{
    let mut at = from;
    let mut col = x;
    for q in (first..end).rev() {
        let to = usize::from(lo[q]);
        at = leg(out, at, col, to, 3);
        col = to;
    }
    at
}

// Writes the right side from column x up all rows.
fn rise(out: &mut [u8], from: usize, x: usize, hi: &[u16], span: usize) -> usize
    requires { ((q : ℕ) → q < length hi.now → get_or hi.now q 0 ≤ span)
        × (from + length (ascent (right_in span hi.now) x 0 (length hi.now)) ≤ length out.old) }
    ensures { (out.new ≡ sets out.old from
        (ascent (right_in span hi.now) x 0 (length hi.now)))
        × (result ≡ from + length (ascent (right_in span hi.now) x 0 (length hi.now))) }
{
    let mut at = from;
    let mut col = x;
    for &east in hi {
        let to = span - usize::from(east);
        at = leg(out, at, col, to, 1);
        col = to;
    }
    at
}

// Writes the outline of the rows, counterclockwise from the lowest of its leftmost corners, which is in the row `home`.
pub fn draw(lo: &[u16], hi: &[u16], span: usize, home: usize, out: &mut [u8])
    requires { (0 < length lo.now) × (length hi.now ≡ length lo.now)
        × (home ≡ home_row (left_in lo.now) (length lo.now - 1)) × (home < length lo.now)
        × ((q : ℕ) → q < length hi.now → get_or hi.now q 0 ≤ span)
        × (length (chain_from_home (left_in lo.now) (right_in span hi.now) (length lo.now - 1)) ≤ length out.old) }
    ensures { out.new ≡ sets out.old 0
        (chain_from_home (left_in lo.now) (right_in span hi.now) (length lo.now - 1)) }
{
    let south = fall(out, 0, usize::from(lo[home]), lo, 0, home);
    let north = rise(out, south, usize::from(lo[0]), hi, span);
    let east = span - usize::from(hi[hi.len() - 1]);
    fall(out, north, east, lo, home, lo.len());
}
