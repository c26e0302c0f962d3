// The path of the outline along the links of a walk's corners: once to count its steps, once to write them.
#![tactic(auto)]

ghost use Rattle.std.specs.Prelude.{◌≡◌, cond, not, ◌&&◌, ◌+◌, ◌*◌, ◌-◌, ◌<◌, ◌≤◌, eqb, length, get_or};
ghost use Rattle.answer.specs.Limits.{most_steps};
ghost use Rattle.outline.specs.Outline.{onward};
ghost use Rattle.outline_path.specs.Ring.{ways_at, RingStore, Long, Written};

// Whether the edge of corner i in direction e was walked.
fn leads(links: &[u16], i: usize, e: u8) -> bool
    requires { (4 * i + 3 < length links.now) × (e < 4) × (i ≤ most_steps) }
    ensures { result ≡ ways_at links.now i e }
{
    links[4 * i + usize::from(e)] > 0
}

// The direction by which the path goes on from corner i, if it came by d.
fn turn(links: &[u16], i: usize, d: u8) -> u8
    requires { (4 * i + 3 < length links.now) × (d < 4) × (i ≤ most_steps) }
    ensures { result ≡ onward (ways_at links.now i) d }
{
    let right = (d + 3) % 4;
    if leads(links, i, right) {
        return right;
    }
    if leads(links, i, d) {
        return d;
    }
    let left = (d + 1) % 4;
    if leads(links, i, left) {
        return left;
    }
    (d + 2) % 4
}

// The corner that the edge of corner i in direction d leads to.
fn follow(links: &[u16], i: usize, d: u8) -> usize
    requires { (4 * i + 3 < length links.now) × (d < 4) × (i ≤ most_steps) × (0 < get_or links.now (4 * i + d) 0) }
    ensures { result ≡ get_or links.now (4 * i + d) 0 - 1 }
{
    usize::from(links[4 * i + usize::from(d)]) - 1
}

// Whether this is another way than the first.
pub fn away(i: usize, d: u8, home: usize, first: u8) -> bool
    ensures { result ≡ not (eqb i home && eqb d first) }
{
    i != home || d != first
}

// How many steps the outline has.
pub fn count(chain: &[u8], links: &[u16], home: usize, first: u8) -> usize
    requires { RingStore chain.now links.now home first }
    ensures { Long chain.now result }
{
    let mut i = follow(links, home, first);
    let mut d = turn(links, i, first);
    let mut n = 1;
    while away(i, d, home, first) {
        i = follow(links, i, d);
        d = turn(links, i, d);
        n += 1;
    }
    n
}

// Writes the n steps of the outline.
pub fn put(chain: &[u8], links: &[u16], home: usize, first: u8, n: usize, out: &mut [u8])
    requires { RingStore chain.now links.now home first × Long chain.now n × (n ≤ length out.old) }
    ensures { Written chain.now out.old out.new }
{
    let mut i = home;
    let mut d = first;
    for k in 0..n {
        out[k] = d;
        i = follow(links, i, d);
        d = turn(links, i, d);
    }
}

// First east if that edge was walked and otherwise north.
pub fn first_way(links: &[u16], home: usize) -> u8
    requires { (4 * home + 3 < length links.now) × (home ≤ most_steps) }
    ensures { result ≡ cond (ways_at links.now home 0) 0 1 }
{
    if leads(links, home, 0) { 0 } else { 1 }
}
