// The neighbour of a node, found or made: a loop climbs to the parents until a link, the root or a shared parent is found, and a
// loop comes down again. Nothing here calls itself. The answer is the node, or None if the table is full. Afterwards the number
// of nodes in use is the larger of the old number and that node's ref, because a new node is always the last.
#![tactic(auto)]

ghost use Rattle.std.specs.Prelude.{None, ◌≡◌, false, cond, suc, ◌+◌, ◌^◌, ◌<◌, max, nat_abs, length, get_or, replicate};
ghost use Rattle.grid.specs.declared.Corner.{Corner as Node};
ghost use Rattle.grid.specs.Grid.{stepped};
ghost use Rattle.grid.specs.Tree.{is_root, parent_of, child_word};
ghost use Rattle.layout.specs.Table.{HasRecord, word_at, parent_word};
ghost use Rattle.table_laws.specs.Climb.{goes_up, Climbed, Descends, Descending};
ghost use Rattle.table_laws.specs.Model.{child_in};
ghost use Rattle.tree.specs.Nodes.{ref_of};
ghost use Rattle.walk_table.specs.Refs.{ref_by};
ghost use Rattle.tree_laws.specs.State.{State, Holds, Held, Stood, Made, grown, reached};

use grid::Corner;
use walk_table::{Record, link, put, word, zero};

// The child of u that stands in this word of its record: found, or made for the step.
pub fn child(t: &mut [u32], nodes: usize, u: usize, place: usize, step: u32) -> Option<usize>
    requires held { Held t.old nodes }
    requires u_lt_nodes { (u < nodes) × (0 < place) × (place < 10) × (length t.old < 2 ^ 32) }
    ensures made { (S : State) (e : Node) → Holds t.old nodes S → is_root e ≡ false
        → ref_of S.nodes (parent_of e) ≡ suc u → place ≡ child_word e
        → Made (length t.old) (grown S e step) e t.new (ref_by result) (max nodes (ref_by result)) }
    ensures t_after { (t.new ≡ (child_in t.old nodes u place step).table)
        × (ref_by result ≡ (child_in t.old nodes u place step).at) }
{
    let known = word(t, u, place) as usize;
    if known != 0 {
        return Some(known - 1);
    }
    if t.len() < (nodes + 1) * Record::WORDS {
        return None;
    }
    put(t, u, place, (nodes + 1) as u32);
    put(t, nodes, Record::PARENT, (u + 1) as u32);
    put(t, nodes, Record::NEED, step);
    Some(nodes)
}

// What a look-up goes from: a node, the corner that it stands for, the direction in which the neighbour lies, and the step that
// makes what is missing.
#[derive(Clone, Copy)]
pub struct Lookup {
    pub node: usize,
    pub at: Corner,
    pub d: u8,
    pub step: u32,
    ghost near: { (nat_abs at.0 < 65536) × (nat_abs at.1 < 65536) },
    ghost way: { d < 4 },
    ghost counted: { 0 < step },
}

// Where a climb stops: a node, its corner, and how many levels up it is.
#[derive(Clone, Copy)]
pub struct Perch {
    pub node: usize,
    pub at: Corner,
    pub level: usize,
}

// Whether the neighbour of c is looked up by its parents: there is no link, neither is the root, and the parents differ.
fn goes_up(t: &[u32], u: usize, c: Corner, d: u8) -> bool
    requires { HasRecord t.now u × (nat_abs c.0 < 65536) × (nat_abs c.1 < 65536) × (d < 4) }
    ensures { result ≡ goes_up t.now u c d }
{
    let beside = word(t, u, Record::NEIGHBOUR + d as usize);
    if beside != 0 {
        return false;
    }
    walk_corner::parted(c, d)
}

// The climb from a node.
fn climb(t: &[u32], nodes: usize, from: Lookup) -> Perch
    requires { Stood t.now nodes from.node from.at }
    ensures climbed { (S : State) → Holds t.now nodes S → ref_of S.nodes from.at ≡ suc from.node
        → Climbed S from.d from.at result.level result.at × (ref_of S.nodes result.at ≡ suc result.node) }
    ensures d_value { goes_up t.now result.node result.at from.d ≡ false }
{
    let mut node = from.node;
    let mut at = from.at;
    let mut level: usize = 0;
    while goes_up(t, node, at, from.d) {
        let up = word(t, node, Record::PARENT) as usize;
        node = up - 1;
        at = walk_corner::parent_of(at);
        level += 1;
    }
    Perch { node, at, level }
}

// The ref of the parent of u, which stands for c; that of u itself if c is the root.
fn parent_or_self(t: &[u32], u: usize, c: Corner) -> usize
    requires { HasRecord t.now u × (u < 2 ^ 32) }
    ensures { result ≡ cond (is_root c) (u + 1) (get_or t.now (word_at u parent_word) 0) }
{
    if walk_corner::is_root(c) {
        return u + 1;
    }
    word(t, u, Record::PARENT) as usize
}

// The neighbour at the level where a climb stopped: linked already, the root, or a child of the node or of the parent that both
// have.
fn top(t: &mut [u32], nodes: usize, from: Lookup) -> Option<usize>
    requires stood { Stood t.old nodes from.node from.at }
    requires d_value { goes_up t.old from.node from.at from.d ≡ false }
    requires t_len_bound { length t.old < 2 ^ 32 }
    ensures { (S : State) → Holds t.old nodes S → ref_of S.nodes from.at ≡ suc from.node
        → Made (length t.old) (reached S from.step from.at (stepped from.d from.at)) (stepped from.d from.at)
        t.new (ref_by result) (max nodes (ref_by result)) }
{
    let way = from.d as usize;
    let known = word(t, from.node, Record::NEIGHBOUR + way) as usize;
    if known != 0 {
        return Some(known - 1);
    }
    let e = walk_corner::moved(from.at, from.d);
    if walk_corner::is_root(e) {
        link(t, from.node, 0, way, from.step);
        return Some(0);
    }
    let over = parent_or_self(t, from.node, from.at);
    let v = child(t, nodes, over - 1, walk_corner::child_word(e), from.step)?;
    link(t, from.node, v, way, from.step);
    Some(v)
}

// Down again to the neighbour, from that of the node u this many levels above, which is v. The node of a level is read in the
// record of the one above, its corner worked out from where the look-up began.
fn come_down(
    t: &mut [u32],
    nodes: usize,
    u: usize,
    v: usize,
    from: Lookup,
    level: usize,
) -> Option<usize>
    requires descending { Descending t.old nodes u (v + 1) from.at from.d from.step level }
    requires t_len_bound { length t.old < 2 ^ 32 }
    ensures { (S : State) → Descends t.old nodes u (v + 1) from.at from.d from.step level S
        → Made (length t.old) (reached S from.step from.at (stepped from.d from.at)) (stepped from.d from.at)
        t.new (ref_by result) (max nodes (ref_by result)) }
{
    let mut at = u;
    let mut to = v;
    for left in (0..level).rev() {
        let a = walk_corner::up_by(from.at, left);
        at = word(t, at, walk_corner::child_word(a)) as usize - 1;
        let e = walk_corner::moved(a, from.d);
        to = child(
            t,
            nodes.max(to + 1),
            to,
            walk_corner::child_word(e),
            from.step,
        )?;
        link(t, at, to, from.d as usize, from.step);
    }
    Some(to)
}

// The neighbour, found or made for the step, with all links that the step makes.
fn neighbour(t: &mut [u32], nodes: usize, from: Lookup) -> Option<usize>
    requires stood { Stood t.old nodes from.node from.at }
    requires t_len_bound { length t.old < 2 ^ 32 }
    ensures { (S : State) → Holds t.old nodes S → ref_of S.nodes from.at ≡ suc from.node
        → Made (length t.old) (reached S from.step from.at (stepped from.d from.at)) (stepped from.d from.at)
        t.new (ref_by result) (max nodes (ref_by result)) }
{
    let p = climb(t, nodes, from);
    let high = Lookup {
        node: p.node,
        at: p.at,
        d: from.d,
        step: from.step,
    };
    let v = top(t, nodes, high)?;
    come_down(t, nodes, p.node, v, from, p.level)
}

// The neighbour as `neighbour` finds it, in one read if the two are linked. If the table is full, it is left all zero.
pub fn reach(t: &mut [u32], nodes: usize, from: Lookup) -> Option<usize>
    requires stood { Stood t.old nodes from.node from.at }
    requires t_len_bound { length t.old < 2 ^ 32 }
    ensures made { (S : State) → Holds t.old nodes S → ref_of S.nodes from.at ≡ suc from.node
        → Made (length t.old) (reached S from.step from.at (stepped from.d from.at)) (stepped from.d from.at)
        t.new (ref_by result) (max nodes (ref_by result)) }
    ensures t_after { result ≡ None → t.new ≡ replicate (length t.old) 0 }
{
    let known = word(t, from.node, Record::NEIGHBOUR + from.d as usize) as usize;
    if known != 0 {
        return Some(known - 1);
    }
    let at = neighbour(t, nodes, from);
    if at.is_none() {
        zero(t);
    }
    at
}
