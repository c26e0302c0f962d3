// The chain over columns: from the last column to the first, each is put in front of those that still make a left turn, unless
// it makes none between its own neighbours. The chain stands at the end of its array.
#![tactic(auto)]

ghost use Rattle.std.specs.Prelude.{◌≡◌, ◌∷◌, ◌+◌, ◌*◌, ◌-◌, ◌<◌, ◌≤◌, ltb, length, drop};
ghost use Rattle.hull_laws.specs.Chain.{turns_at, drops_at, cut_at, turn_from};
ghost use Rattle.hull_chains.specs.Stack.{Scanned, Stack};

// Whether heights p, b and a turn left at b, if b and a lie u and w columns to the right of p.
fn bends(u: usize, w: usize, p: u16, b: u16, a: u16) -> bool
    requires { (u < 65536) × (w < 65536) }
    ensures { result ≡ ltb (w * b + u * p) (u * a + w * p) }
{
    let p = usize::from(p);
    let b = usize::from(b);
    let a = usize::from(a);
    w * b + u * p < u * a + w * p
}

// Whether the columns p, b and a turn left at b.
fn turns(ys: &[u16], p: usize, b: usize, a: usize) -> bool
    requires { (p < b) × (p < a) × (b < length ys.now) × (a < length ys.now) × (length ys.now ≤ 65536) }
    ensures { result ≡ turns_at ys.now p b a }
{
    bends(b - p, a - p, ys[p], ys[b], ys[a])
}

// Whether the first column of the chain s makes no left turn after p.
fn drops(ys: &[u16], s: &[u16], p: usize) -> bool
    requires { Stack ys.now s.now 0 p }
    ensures { result ≡ drops_at ys.now p s.now }
{
    let &[b, a, ..] = s else {
        return false;
    };
    !turns(ys, p, usize::from(b), usize::from(a))
}

// Puts p in front of the chain from q on, and answers where it begins then.
fn push(ys: &[u16], s: &mut [u16], q: usize, p: usize) -> usize
    requires { Stack ys.now s.old q p × (0 < q) × (p < length ys.now) }
    ensures { (drop result s.new ≡ p ∷ cut_at ys.now p (drop q s.old)) × (q ≤ result + 1)
        × (result < length s.old) }
{
    let mut f = q;
    while drops(ys, &s[f..], p) {
        f += 1;
    }
    f -= 1;
    s[f] = p as u16;
    f
}

// The first column from i on to the left that turns left between its two neighbours, or column 0.
fn pass(ys: &[u16], i: usize) -> usize
    requires { (i + 1 < length ys.now) × (length ys.now ≤ 65536) }
    ensures { result ≡ turn_from ys.now i }
{
    for j in (1..=i).rev() {
        if turns(ys, j - 1, j, j + 1) {
            return j;
        }
    }
    0
}

// The column that comes in front of the chain of the columns from i on: the others make no left turn between their two
// neighbours.
fn next(ys: &[u16], i: usize) -> usize
    requires { (0 < i) × (i ≤ length ys.now) × (length ys.now ≤ 65536) }
    ensures { (length ys.now ≡ i → result ≡ i - 1) × (i < length ys.now → result ≡ turn_from ys.now (i - 1)) }
{
    if i == ys.len() {
        return i - 1;
    }
    pass(ys, i - 1)
}

// The chain of the columns: where it begins in s.
pub fn scan(ys: &[u16], s: &mut [u16]) -> usize
    requires { (length ys.now ≤ length s.old) × (length ys.now ≤ 65536) }
    ensures { Scanned ys.now s.new result }
{
    let mut q = s.len();
    let mut i = ys.len();
    while i > 0 {
        i = next(ys, i);
        q = push(ys, s, q, i);
    }
    q
}
