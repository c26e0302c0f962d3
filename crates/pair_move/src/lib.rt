// One of two parties goes a step, or takes its last step back.
#![tactic(auto)]

ghost use Rattle.std.specs.Prelude.{List, [], ◌∷◌, ◌++◌, ◌≡◌, ℕ, suc, ◌+◌, ◌-◌, ◌%◌, ◌^◌, ◌<◌, nat_abs, length};
ghost use Rattle.answer.specs.Limits.{no_meeting};
ghost use Rattle.grid.specs.declared.Corner.{Corner as Node};
ghost use Rattle.grid.specs.Grid.{same, stepped, corners_from, end_from};
ghost use Rattle.grid.specs.Tree.{path_of};
ghost use Rattle.layout.specs.Table.{neighbour_word};
ghost use Rattle.lists.specs.Lists.{count};
ghost use Rattle.pair_table.specs.Slots.{Slot, needs_of, placed_all, settle};
ghost use Rattle.pair_table_laws.specs.Hold.{Both, words_in};
ghost use Rattle.pair_table_laws.specs.Stores.{pair_visit_in, pair_tread_in};
ghost use Rattle.pair_words.specs.Places.{InTable};
ghost use Rattle.walk_step.specs.Tallies.{TallyIs};
ghost use Rattle.pair_move.specs.Moves.{first_after, second_after, fresh_party, PartyIs, Moves, Moving, Withdrawing, StepCounted, Arrives, Arriving, PairAdvanced};

use grid::Corner;
use pair_child::Stock;
use pair_words::{own, word};
use walk_lookup::Lookup;
use walk_step::Tally;
use walk_table::Record;

// Where a party stands: the node's number and its corner, how many of its steps survive, and its tally.
#[derive(Clone, Copy)]
pub struct Party {
    pub node: usize,
    pub at: Corner,
    pub steps: usize,
    pub tally: Tally,
}

impl Party {
    // A party with no step, at its start.
    pub fn new(start: Corner, node: usize) -> Party
        ensures { result ≡ fresh_party start node }
    {
        let tally = Tally {
            corners: 1,
            j: Tally::NO_MEETING,
            k: Tally::NO_MEETING,
        };
        Party {
            node,
            at: start,
            steps: 0,
            tally,
        }
    }
}

// A party between two operations, and what is in use then.
#[derive(Clone, Copy)]
pub struct Stride {
    pub party: Party,
    pub stock: Stock,
}

// The tally with a visit as corner n: there were this many visits of the corner with it, the first as corner `first` - 1.
fn tallied(m: Tally, visits: u32, first: usize, n: usize) -> Tally
    requires { (m.corners < 65536) × (0 < first) × (n < no_meeting) }
    ensures { (c : Node) (ds : List ℕ) (d : ℕ) → StepCounted c ds d visits first n → TallyIs c ds m
        → TallyIs c (ds ++ (d ∷ [])) result }
{
    if visits == 1 {
        return Tally {
            corners: m.corners + 1,
            ..m
        };
    }
    if m.k == Tally::NO_MEETING {
        return Tally {
            j: first - 1,
            k: n,
            ..m
        };
    }
    m
}

// The tally without its last visit, as corner n.
fn untallied(m: Tally, visits: u32, n: usize) -> Tally
    requires { (0 < m.corners) × (n < no_meeting) }
    ensures { (c : Node) (ds : List ℕ) (d : ℕ) → (visits ≡ count (same (stepped d (end_from c ds))) (corners_from c ds) + 1)
        → n ≡ suc (length ds) → TallyIs c (ds ++ (d ∷ [])) m → TallyIs c ds result }
{
    if visits == 1 {
        return Tally {
            corners: m.corners - 1,
            ..m
        };
    }
    if m.k == n {
        return Tally {
            j: Tally::NO_MEETING,
            k: Tally::NO_MEETING,
            ..m
        };
    }
    m
}

// Party q, which stands at p, arrives at the node v by its step n in the direction d.
fn arrive(t: &mut [u32], q: usize, p: Party, v: usize, d: u8, n: usize) -> Party
    requires arriving { Arriving t.old q p v d n }
    requires at_bound { (nat_abs p.at.0 < 65536) × (nat_abs p.at.1 < 65536) × (d < 4) × (q < 2) × (n < no_meeting) }
    ensures t_after { t.new ≡ pair_tread_in q (pair_visit_in q t.old v n) p.node v d }
    ensures party_is { (slots : List Slot) (C : Both) (c : Node) (ds : List ℕ) → Arrives t.old slots C q c ds p v d n
        → PartyIs (placed_all slots (path_of (stepped d (end_from c ds)))) c (ds ++ (d ∷ [])) result }
{
    pair_words::visit(t, q, v, n);
    pair_words::tread(t, q, p.node, v, d as usize);
    let first = own(t, q, v, Record::FIRST) as usize;
    let tally = tallied(p.tally, own(t, q, v, Record::VISITS), first, n);
    let at = walk_corner::moved(p.at, d);
    Party {
        node: v,
        at,
        steps: n,
        tally,
    }
}

// One step of party q in the direction d. Answers where it stands then, or None if the table is full.
pub fn advance(t: &mut [u32], q: usize, w: Stride, d: u8) -> Option<Stride>
    requires moving { Moving t.old q w.party w.stock }
    requires at_bound { (nat_abs w.party.at.0 < 65536) × (nat_abs w.party.at.1 < 65536) × (d < 4) × (q < 2)
        × (w.party.steps + 1 < no_meeting) × (length t.old < 2 ^ 32) }
    ensures { (c e : Node) (ds es : List ℕ) (slots : List Slot) → Moves t.old c e ds es slots q w.party w.stock
        → PairAdvanced t.old c e ds es slots q d t.new result }
{
    let n = w.party.steps + 1;
    let from = Lookup {
        node: w.party.node,
        at: w.party.at,
        d,
        step: n as u32,
    };
    let to = pair_lookup::reach(t, q, w.stock, from)?;
    let party = arrive(t, q, w.party, to.node, d, n);
    Some(Stride {
        party,
        stock: to.stock,
    })
}

// The node from which the last step came, which went in the direction d to the node.
fn origin(t: &[u32], node: usize, d: u8) -> usize
    requires { InTable t.now node × (d < 4) × (0 < words_in t.now node (neighbour_word ((d + 2) % 4))) }
    ensures { result ≡ words_in t.now node (neighbour_word ((d + 2) % 4)) - 1 }
{
    let b = (d as usize + 2) % 4;
    word(t, node, Record::NEIGHBOUR + b) as usize - 1
}

// Party q before its last step, which went in the direction d.
pub fn withdraw(t: &mut [u32], q: usize, w: Stride, d: u8) -> Stride
    requires withdrawing { Withdrawing t.old q w.party w.stock d }
    requires at_bound { (nat_abs w.party.at.0 < 65536) × (nat_abs w.party.at.1 < 65536) × (d < 4) × (q < 2)
        × (w.party.steps < no_meeting) }
    ensures { (c e : Node) (ds es : List ℕ) (slots : List Slot)
        → Moves t.old c e (first_after q ds d) (second_after q es d) slots q w.party w.stock
        → Moves t.new c e ds es (settle slots (needs_of c e ds es)) q result.party result.stock }
{
    let n = w.party.steps;
    let node = w.party.node;
    let here = w.party.at;
    let after = w.party.tally;
    let way = d as usize;
    let tally = untallied(after, own(t, q, node, Record::VISITS), n);
    let from = origin(t, node, d);
    let at = walk_corner::moved(here, (d + 2) % 4);
    pair_words::untread(t, q, from, node, way);
    pair_words::unvisit(t, q, node);
    pair_back::unlink_up(t, q, from, at, way, n as u32);
    let stock = pair_back::drop_up(t, q, w.stock, node, here, n as u32);
    let party = Party {
        node: from,
        at,
        steps: n - 1,
        tally,
    };
    Stride { party, stock }
}
