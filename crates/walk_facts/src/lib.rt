// The facts of an accepted walk: its verdict, its area, and what it counted.
#![tactic(auto)]

ghost use Rattle.std.specs.Prelude.{List, ◌≡◌, ℕ, ◌*◌, ◌<◌, ◌≤◌, nat_abs, ◌+ℤ◌, length};
ghost use Rattle.walk.specs.Walk.{facts_of, party_facts_of};
ghost use Rattle.answer.specs.Limits.{most_steps, no_meeting, farthest, Near};
ghost use Rattle.walk_step.specs.Tallies.{Says};
ghost use Rattle.trace.specs.Meeting.{Meeting};
ghost use Rattle.trace.specs.Verdict.{verdict_by, sweep_from, area_by};
ghost use Rattle.walk_facts.specs.Settled.{gain, WalkOver, SomeOver, Settled, Settling};

use answer::{Facts, PartyFacts, Verdict};
use grid::Corner;
use walk_step::{Tally, Walk};

// The sum with x times the change of y that the step d makes.
fn gained(sum: i32, x: i32, d: u8) -> i32
    requires { (nat_abs sum ≤ most_steps * farthest) × (nat_abs x ≤ farthest) }
    ensures { result ≡ sum +ℤ gain d x }
{
    sum + x * walk_corner::north(d)
}

// The sum over the steps of x times the change of y.
fn sweep(start: Corner, steps: &[u8]) -> i32
    requires { Near start × (length steps.now ≤ most_steps) }
    ensures { result ≡ sweep_from start steps.now }
{
    let mut at = start;
    let mut sum = 0;
    for &d in steps {
        sum = gained(sum, at.0, d);
        at = walk_corner::moved(at, d);
    }
    sum
}

// The signed area of the steps: 0 if they are not a room.
fn area(start: Corner, steps: &[u8], v: Verdict) -> i32
    requires { Near start × (length steps.now ≤ most_steps) }
    ensures { result ≡ area_by v (sweep_from start steps.now) }
{
    match v {
        Verdict::Room => sweep(start, steps),
        _ => 0,
    }
}

// The verdict on n steps with the first meeting (j, k).
fn verdict(n: usize, closed: bool, j: usize, k: usize) -> Verdict
    requires { n < no_meeting }
    ensures { (m : Meeting) → Says m j k → result ≡ verdict_by n closed m }
{
    match (n, closed) {
        (0, _) => Verdict::Nowhere,
        (_, false) if k == Tally::NO_MEETING => Verdict::Open,
        (_, false) => Verdict::OpenMeeting,
        _ if j != 0 || k != n => Verdict::ClosedMeeting,
        (2, _) => Verdict::ThereAndBack,
        _ => Verdict::Room,
    }
}

// The facts of n steps from start, which stand in the chain and end at the corner last: all but the nodes. They are closed if
// they end at the start.
pub fn party_facts(start: Corner, chain: &[u8], n: usize, last: Corner, tally: Tally) -> PartyFacts
    requires { SomeOver start chain.now n last tally }
    ensures { (ds : List ℕ) → WalkOver start chain.now ds n last tally → result ≡ party_facts_of start ds }
{
    let v = verdict(n, last == start, tally.j, tally.k);
    let a = area(start, &chain[..n], v);
    PartyFacts {
        verdict: v,
        steps: n,
        corners: tally.corners,
        j: tally.j,
        k: tally.k,
        area: a,
        last,
    }
}

// The facts of the walk w from start, whose steps stand in the chain.
pub fn facts(start: Corner, chain: &[u8], w: Walk) -> Facts
    requires { Settling start chain.now w }
    ensures { (ds : List ℕ) → Settled start chain.now ds w → result ≡ facts_of start ds }
{
    let spot = w.spot;
    let f = party_facts(start, chain, spot.steps, spot.at, w.tally);
    Facts {
        verdict: f.verdict,
        steps: f.steps,
        nodes: spot.nodes,
        corners: f.corners,
        j: f.j,
        k: f.k,
        area: f.area,
        last: f.last,
    }
}
