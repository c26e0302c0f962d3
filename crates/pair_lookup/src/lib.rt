// The neighbour of a node, found or made for one of two parties. It is looked up as for one party, by that party's own links: a
// loop climbs to the parents until a link of its own, the root or a shared parent is found, and a loop comes down again. The
// answer is None if the table is full.
#![tactic(auto)]

ghost use Rattle.std.specs.Prelude.{◌≡◌, false, cond, List, ◌+◌, ◌^◌, ◌<◌, nat_abs, length};
ghost use Rattle.grid.specs.Grid.{stepped};
ghost use Rattle.grid.specs.Tree.{is_root};
ghost use Rattle.layout.specs.Table.{parent_word};
ghost use Rattle.table_laws.specs.Climb.{Climbed};
ghost use Rattle.tree_laws.specs.State.{reached};
ghost use Rattle.pair_table.specs.Slots.{Slot};
ghost use Rattle.pair_table_laws.specs.Hold.{Both, words_in};
ghost use Rattle.pair_table_laws.specs.Look.{pair_goes_up};
ghost use Rattle.pair_words.specs.Places.{InTable};
ghost use Rattle.pair_child.specs.Finds.{Finds};
ghost use Rattle.pair_lookup.specs.Climbs.{Stands, PairStanding, Looks, Looking, Lifts, Lifting, ComesDown, Coming};

use grid::Corner;
use pair_child::{Located, Stock, child};
use pair_words::{link, own, word};
use walk_lookup::{Lookup, Perch};
use walk_table::Record;

// Whether the neighbour of c is looked up by its parents: party q has no link, neither is the root, and the parents differ.
fn goes_up(t: &[u32], q: usize, u: usize, c: Corner, d: u8) -> bool
    requires { InTable t.now u × (q < 2) × (nat_abs c.0 < 65536) × (nat_abs c.1 < 65536) × (d < 4) }
    ensures { result ≡ pair_goes_up q t.now u c d }
{
    if own(t, q, u, Record::LINK_STEP + d as usize) != 0 {
        return false;
    }
    walk_corner::parted(c, d)
}

// The climb from a node.
fn climb(t: &[u32], q: usize, from: Lookup) -> Perch
    requires { PairStanding t.now q from.node from.at × (q < 2) }
    ensures climbed { (slots : List Slot) (B : Both) → Stands t.now slots B q from.node from.at
        → Climbed (B q) from.d from.at result.level result.at × Stands t.now slots B q result.node result.at }
    ensures d_value { pair_goes_up q t.now result.node result.at from.d ≡ false }
{
    let mut node = from.node;
    let mut at = from.at;
    let mut level: usize = 0;
    while goes_up(t, q, node, at, from.d) {
        let up = word(t, node, Record::PARENT) as usize;
        node = up - 1;
        at = walk_corner::parent_of(at);
        level += 1;
    }
    Perch { node, at, level }
}

// The ref of the parent of u, which stands for c; that of u itself if c is the root.
fn parent_or_self(t: &[u32], u: usize, c: Corner) -> usize
    requires { InTable t.now u × (u < 2 ^ 32) }
    ensures { result ≡ cond (is_root c) (u + 1) (words_in t.now u parent_word) }
{
    if walk_corner::is_root(c) {
        return u + 1;
    }
    word(t, u, Record::PARENT) as usize
}

// One level down: the child of v beside the corner of the look-up, and their link.
fn level_down(t: &mut [u32], q: usize, v: Located, from: Lookup) -> Option<Located>
    requires lifting { Lifting t.old q v from.node from.at from.d from.step }
    requires q_bound { (q < 2) × (from.step + 1 < 2 ^ 32) × (length t.old < 2 ^ 32) }
    ensures { (slots : List Slot) (B : Both) → Lifts t.old slots B q v from.node from.at from.d from.step
        → Finds B slots q (reached (B q) from.step from.at (stepped from.d from.at)) (stepped from.d from.at)
        t.old t.new result }
{
    let e = walk_corner::moved(from.at, from.d);
    let to = child(t, q, v.stock, v.node, walk_corner::child_word(e), from.step)?;
    link(t, q, from.node, to.node, from.d as usize, from.step);
    Some(to)
}

// The neighbour at the level where a climb stopped: linked by party q already, the root, or a child of the node or of the parent
// that both have.
fn top(t: &mut [u32], q: usize, s: Stock, from: Lookup) -> Option<Located>
    requires looking { Looking t.old q from.node from.at s }
    requires d_value { pair_goes_up q t.old from.node from.at from.d ≡ false }
    requires q_bound { (q < 2) × (from.step + 1 < 2 ^ 32) × (length t.old < 2 ^ 32) }
    ensures { (slots : List Slot) (B : Both) → Looks t.old slots B q from.node from.at s
        → Finds B slots q (reached (B q) from.step from.at (stepped from.d from.at)) (stepped from.d from.at)
        t.old t.new result }
{
    let way = from.d as usize;
    if own(t, q, from.node, Record::LINK_STEP + way) != 0 {
        let known = word(t, from.node, Record::NEIGHBOUR + way) as usize;
        return Some(Located {
            node: known - 1,
            stock: s,
        });
    }
    let e = walk_corner::moved(from.at, from.d);
    if walk_corner::is_root(e) {
        link(t, q, from.node, 0, way, from.step);
        return Some(Located { node: 0, stock: s });
    }
    let over = parent_or_self(t, from.node, from.at);
    let above = Located {
        node: over - 1,
        stock: s,
    };
    level_down(t, q, above, from)
}

// Down again to the neighbour, from that of the node u this many levels above, which is v. The node of a level is read in the
// record of the one above, its corner worked out from where the look-up began.
fn come_down(
    t: &mut [u32],
    q: usize,
    v: Located,
    u: usize,
    from: Lookup,
    level: usize,
) -> Option<Located>
    requires coming { Coming t.old q v u from.at from.d from.step level }
    requires q_bound { (q < 2) × (from.step + 1 < 2 ^ 32) × (length t.old < 2 ^ 32) }
    ensures { (slots : List Slot) (B : Both) → ComesDown t.old slots B q v u from.at from.d from.step level
        → Finds B slots q (reached (B q) from.step from.at (stepped from.d from.at)) (stepped from.d from.at)
        t.old t.new result }
{
    let mut at = u;
    let mut to = v;
    for left in (0..level).rev() {
        let a = walk_corner::up_by(from.at, left);
        at = word(t, at, walk_corner::child_word(a)) as usize - 1;
        let here = Lookup {
            node: at,
            at: a,
            d: from.d,
            step: from.step,
        };
        to = level_down(t, q, to, here)?;
    }
    Some(to)
}

// The neighbour, found or made for the step of party q, with all links that the step makes.
fn neighbour(t: &mut [u32], q: usize, s: Stock, from: Lookup) -> Option<Located>
    requires looking { Looking t.old q from.node from.at s }
    requires q_bound { (q < 2) × (from.step + 1 < 2 ^ 32) × (length t.old < 2 ^ 32) }
    ensures { (slots : List Slot) (B : Both) → Looks t.old slots B q from.node from.at s
        → Finds B slots q (reached (B q) from.step from.at (stepped from.d from.at)) (stepped from.d from.at)
        t.old t.new result }
{
    let p = climb(t, q, from);
    let high = Lookup {
        node: p.node,
        at: p.at,
        d: from.d,
        step: from.step,
    };
    let v = top(t, q, s, high)?;
    come_down(t, q, v, p.node, from, p.level)
}

// The neighbour as `neighbour` finds it, in two reads if party q links the two.
pub fn reach(t: &mut [u32], q: usize, s: Stock, from: Lookup) -> Option<Located>
    requires looking { Looking t.old q from.node from.at s }
    requires q_bound { (q < 2) × (from.step + 1 < 2 ^ 32) × (length t.old < 2 ^ 32) }
    ensures { (slots : List Slot) (B : Both) → Looks t.old slots B q from.node from.at s
        → Finds B slots q (reached (B q) from.step from.at (stepped from.d from.at)) (stepped from.d from.at)
        t.old t.new result }
{
    let way = from.d as usize;
    if own(t, q, from.node, Record::LINK_STEP + way) != 0 {
        let known = word(t, from.node, Record::NEIGHBOUR + way) as usize;
        return Some(Located {
            node: known - 1,
            stock: s,
        });
    }
    neighbour(t, q, s, from)
}
