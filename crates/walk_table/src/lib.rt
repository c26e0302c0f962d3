// The words of the lent table: node records at fixed offsets, what is written there, and what is taken away.
#![tactic(auto)]

ghost use Rattle.std.specs.Prelude.{◌≡◌, ◌+◌, ◌*◌, ◌^◌, ◌<◌, ◌-◌, ◌≤◌, length, get_or, set, take, replicate, ◌++◌};
ghost use Rattle.table_laws.specs.Model.{link_in, visit_in, unvisit_in, edge_in, tread_in, untread_in, unset_in};
ghost use Rattle.std.proofs.lemmas.List.Edits.{sets};
ghost use Rattle.layout.specs.Table.{width, word_at, HasRecord, neighbour_word, link_word, visits_word, edge_word};

// The record of a node, by its number, and the places of its words.
#[derive(Clone, Copy)]
pub struct Record(pub usize);

impl Record {
    pub const WORDS: usize = 25;

    pub const PARENT: usize = 0;

    pub const NEIGHBOUR: usize = 10;

    pub const LINK_STEP: usize = 14;

    pub const VISITS: usize = 18;

    pub const NEED: usize = 19;

    pub const FIRST: usize = 20;

    pub const EDGE: usize = 21;
}

// Word f of record r.
pub fn word(t: &[u32], r: usize, f: usize) -> u32
    requires { word_at r f < length t.now }
    ensures { result ≡ get_or t.now (word_at r f) 0 }
{
    t[r * Record::WORDS + f]
}

// Sets word f of record r.
pub fn put(t: &mut [u32], r: usize, f: usize, v: u32)
    requires { word_at r f < length t.old }
    ensures { t.new ≡ set t.old (word_at r f) v }
{
    t[r * Record::WORDS + f] = v;
}

// Sets the ref of the neighbour in the direction d and that link's step, in the record u.
fn put_link(t: &mut [u32], u: usize, d: usize, to: u32, step: u32)
    requires { HasRecord t.old u × (d < 4) }
    ensures { t.new ≡ set (set t.old (word_at u (neighbour_word d)) to) (word_at u (link_word d)) step }
{
    put(t, u, Record::NEIGHBOUR + d, to);
    put(t, u, Record::LINK_STEP + d, step);
}

// Links u and v both ways, by the step: v lies in the direction d of u.
pub fn link(t: &mut [u32], u: usize, v: usize, d: usize, step: u32)
    requires has_record { HasRecord t.old u × HasRecord t.old v }
    requires d_bound { (d < 4) × (length t.old < 2 ^ 32) }
    ensures { t.new ≡ link_in t.old u v d step }
{
    let b = (d + 2) % 4;
    put_link(t, u, d, (v + 1) as u32, step);
    put_link(t, v, b, (u + 1) as u32, step);
}

// Counts a visit of the node at corner k.
pub fn visit(t: &mut [u32], r: usize, k: usize)
    requires { HasRecord t.old r × (get_or t.old (word_at r visits_word) 0 + 1 < 2 ^ 32) × (k + 1 < 2 ^ 32) }
    ensures { t.new ≡ visit_in t.old r k }
{
    let v = word(t, r, Record::VISITS);
    put(t, r, Record::VISITS, v + 1);
    if v == 0 {
        put(t, r, Record::FIRST, (k + 1) as u32);
    }
}

// Takes a visit of the node back.
pub fn unvisit(t: &mut [u32], r: usize)
    requires { HasRecord t.old r × (0 < get_or t.old (word_at r visits_word) 0) }
    ensures { t.new ≡ unvisit_in t.old r }
{
    let v = word(t, r, Record::VISITS);
    put(t, r, Record::VISITS, v - 1);
    if v == 1 {
        put(t, r, Record::FIRST, 0);
    }
}

// Sets the count of the edge between u and v at both its ends: v lies in the direction d of u.
fn put_edge(t: &mut [u32], u: usize, v: usize, d: usize, count: u32)
    requires { HasRecord t.old u × HasRecord t.old v × (d < 4) }
    ensures { t.new ≡ edge_in t.old u v d count }
{
    let b = (d + 2) % 4;
    put(t, u, Record::EDGE + d, count);
    put(t, v, Record::EDGE + b, count);
}

// Counts a step along the edge between u and v.
pub fn tread(t: &mut [u32], u: usize, v: usize, d: usize)
    requires { HasRecord t.old u × HasRecord t.old v × (d < 4) × (get_or t.old (word_at u (edge_word d)) 0 + 1 < 2 ^ 32) }
    ensures { t.new ≡ tread_in t.old u v d }
{
    let n = word(t, u, Record::EDGE + d);
    put_edge(t, u, v, d, n + 1);
}

// Takes a step along the edge between u and v back.
pub fn untread(t: &mut [u32], u: usize, v: usize, d: usize)
    requires { HasRecord t.old u × HasRecord t.old v × (d < 4) × (0 < get_or t.old (word_at u (edge_word d)) 0) }
    ensures { t.new ≡ untread_in t.old u v d }
{
    let n = word(t, u, Record::EDGE + d);
    put_edge(t, u, v, d, n - 1);
}

// Takes the link between u and v away.
pub fn unlink(t: &mut [u32], u: usize, v: usize, d: usize)
    requires { HasRecord t.old u × HasRecord t.old v × (d < 4) }
    ensures { t.new ≡ unset_in t.old u v d }
{
    let b = (d + 2) % 4;
    put_link(t, u, d, 0, 0);
    put_link(t, v, b, 0, 0);
}

// Clears n words from a place on.
pub fn clear_words(t: &mut [u32], from: usize, n: usize)
    requires { from + n ≤ length t.old }
    ensures { t.new ≡ sets t.old from (replicate n 0) }
{
    t[from..from + n].fill(0);
}

// Clears the record r.
pub fn clear_record(t: &mut [u32], r: usize)
    requires { HasRecord t.old r }
    ensures { t.new ≡ sets t.old (r * width) (replicate width 0) }
{
    clear_words(t, r * Record::WORDS, Record::WORDS);
}

// Clears all words.
pub fn zero(t: &mut [u32])
    ensures { t.new ≡ replicate (length t.old) 0 }
{
    t.fill(0);
}

// Clears the bytes from a place on.
pub fn zero_from(s: &mut [u8], from: usize)
    requires { from ≤ length s.old }
    ensures { s.new ≡ take from s.old ++ replicate (length s.old - from) 0 }
{
    s[from..].fill(0);
}
