// A walk goes a step, or takes its last step back.
#![tactic(auto)]

ghost use Rattle.std.specs.Prelude.{◌≡◌, List, [], ◌∷◌, ◌++◌, ℕ, ◌+◌, ◌^◌, ◌<◌, nat_abs, length};
ghost use Rattle.answer.specs.Limits.{no_meeting};
ghost use Rattle.grid.specs.declared.Corner.{Corner as Node};
ghost use Rattle.walk_step.specs.Spots.{Walked, Standing, Stepped, Went};
ghost use Rattle.walk_step.specs.Tallies.{TallyIs};
ghost use Rattle.walk_step.specs.Walks.{fresh, Known, Knowing, Withdrawable, Advanced};

use answer::Limits;
use grid::Corner;
use walk_lookup::Lookup;
use walk_table::{Record, word};

// Where a walk stands: the node's number and its corner, how many steps survive, and how many nodes are in use.
#[derive(Clone, Copy)]
pub struct Spot {
    pub node: usize,
    pub at: Corner,
    pub steps: usize,
    pub nodes: usize,
}

// How many different corners a walk has, and its first meeting.
#[derive(Clone, Copy)]
pub struct Tally {
    pub corners: usize,
    pub j: usize,
    pub k: usize,
}

impl Tally {
    // j and k if there is no meeting.
    pub const NO_MEETING: usize = 65535;
}

// A walk on its way: where it stands, and its tally.
#[derive(Clone, Copy)]
pub struct Walk {
    pub spot: Spot,
    pub tally: Tally,
}

impl Walk {
    // Input bytes at most.
    pub const MOST_INPUT: usize = Limits::MOST_INPUT;

    // Surviving steps at most, at any moment.
    pub const MOST_STEPS: usize = Limits::MOST_STEPS;

    // Records of the table at most.
    pub const MOST_RECORDS: usize = Limits::MOST_RECORDS;

    // Words of the mark of an operation.
    pub const MARK_WORDS: usize = 3;

    // A walk with no step, at its start, which is the last of the nodes.
    pub fn new(start: Corner, node: usize) -> Walk
        requires { node < 2 ^ 32 }
        ensures { result ≡ fresh start node }
    {
        let spot = Spot {
            node,
            at: start,
            steps: 0,
            nodes: node + 1,
        };
        let tally = Tally {
            corners: 1,
            j: Tally::NO_MEETING,
            k: Tally::NO_MEETING,
        };
        Walk { spot, tally }
    }
}

// One step in the direction d. Answers where the walk stands then, or None if the table is full: then it is all zero.
fn go(t: &mut [u32], w: Spot, d: u8) -> Option<Spot>
    requires standing { Standing t.old w }
    requires at_bound { (nat_abs w.at.0 < 65536) × (nat_abs w.at.1 < 65536) × (d < 4) × (w.steps < 65536)
        × (length t.old < 2 ^ 32) }
    ensures { (c : Node) (ds : List ℕ) → Walked t.old c ds w
        → Went (length t.old) t.new c (ds ++ (d ∷ [])) result }
{
    let n = w.steps + 1;
    let from = Lookup {
        node: w.node,
        at: w.at,
        d,
        step: n as u32,
    };
    let at = walk_lookup::reach(t, w.nodes, from)?;
    walk_table::visit(t, at, n);
    walk_table::tread(t, w.node, at, d as usize);
    let there = walk_corner::moved(w.at, d);
    Some(Spot {
        node: at,
        at: there,
        steps: n,
        nodes: w.nodes.max(at + 1),
    })
}

// The last step, which went in the direction d, is taken back.
fn take_back(t: &mut [u32], w: Spot, d: u8) -> Spot
    requires stepped { Stepped t.old w d }
    requires at_bound { (nat_abs w.at.0 < 65536) × (nat_abs w.at.1 < 65536) × (d < 4) × (w.steps < 65537) }
    ensures { (c : Node) (ds : List ℕ) → Walked t.old c (ds ++ (d ∷ [])) w → Walked t.new c ds result }
{
    let n = w.steps;
    let node = w.node;
    let here = w.at;
    let way = d as usize;
    let b = (way + 2) % 4;
    let from = word(t, node, Record::NEIGHBOUR + b) as usize - 1;
    walk_table::untread(t, from, node, way);
    walk_table::unvisit(t, node);
    walk_back::unlink_up(t, from, way, n as u32);
    let left = walk_back::drop_up(t, w.nodes, node, here, n as u32);
    let there = walk_corner::moved(here, b as u8);
    Spot {
        node: from,
        at: there,
        steps: n - 1,
        nodes: left,
    }
}

// The tally after the step d that led to w.
fn tallied(t: &[u32], w: Spot, m: Tally, d: u8) -> Tally
    requires stepped { Stepped t.now w d }
    requires steps_lt_no_meeting { (w.steps < no_meeting) × (m.corners < 65536) }
    ensures { (c : Node) (ds : List ℕ) → Walked t.now c (ds ++ (d ∷ [])) w → TallyIs c ds m
        → TallyIs c (ds ++ (d ∷ [])) result }
{
    let node = w.node;
    let n = w.steps;
    let k = m.k;
    if word(t, node, Record::VISITS) == 1 {
        return Tally {
            corners: m.corners + 1,
            ..m
        };
    }
    if k == Tally::NO_MEETING {
        let first = word(t, node, Record::FIRST) as usize;
        return Tally {
            j: first - 1,
            k: n,
            ..m
        };
    }
    m
}

// The tally before the step d that led to w: asked before the step is taken back.
fn untallied(t: &[u32], w: Spot, m: Tally, d: u8) -> Tally
    requires stepped { Stepped t.now w d }
    requires steps_lt_no_meeting { (w.steps < no_meeting) × (0 < m.corners) }
    ensures { (c : Node) (ds : List ℕ) → Walked t.now c (ds ++ (d ∷ [])) w
        → TallyIs c (ds ++ (d ∷ [])) m → TallyIs c ds result }
{
    let node = w.node;
    let n = w.steps;
    let k = m.k;
    if word(t, node, Record::VISITS) == 1 {
        return Tally {
            corners: m.corners - 1,
            ..m
        };
    }
    if k == n {
        return Tally {
            j: Tally::NO_MEETING,
            k: Tally::NO_MEETING,
            ..m
        };
    }
    m
}

// One step of the walk in the direction d. Answers the walk then, or None if the table is full: then it is all zero.
pub fn advance(t: &mut [u32], w: Walk, d: u8) -> Option<Walk>
    requires knowing { Knowing t.old w }
    requires at_bound { (nat_abs w.spot.at.0 < 65536) × (nat_abs w.spot.at.1 < 65536) × (d < 4)
        × (w.spot.steps + 1 < no_meeting) × (length t.old < 2 ^ 32) }
    ensures { (c : Node) (ds : List ℕ) → Known t.old c ds w
        → Advanced (length t.old) t.new c (ds ++ (d ∷ [])) result }
{
    let spot = w.spot;
    let tally = w.tally;
    let next = go(t, spot, d)?;
    let counts = tallied(t, next, tally, d);
    Some(Walk {
        spot: next,
        tally: counts,
    })
}

// The walk before its last step, which went in the direction d.
pub fn withdraw(t: &mut [u32], w: Walk, d: u8) -> Walk
    requires withdrawable { Withdrawable t.old w d }
    requires at_bound { (nat_abs w.spot.at.0 < 65536) × (nat_abs w.spot.at.1 < 65536) × (d < 4)
        × (w.spot.steps < no_meeting) }
    ensures { (c : Node) (ds : List ℕ) → Known t.old c (ds ++ (d ∷ [])) w → Known t.new c ds result }
{
    let spot = w.spot;
    let tally = w.tally;
    let counts = untallied(t, spot, tally, d);
    let there = take_back(t, spot, d);
    Walk {
        spot: there,
        tally: counts,
    }
}
