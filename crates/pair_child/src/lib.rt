// The child of a node, for one of two parties: a node that is there is needed by this party from now on, a node that is not there
// takes the lowest free record.
#![tactic(auto)]

ghost use Rattle.std.specs.Prelude.{◌≡◌, ℕ, suc, ◌+◌, ◌^◌, ◌<◌, length};
ghost use Rattle.pair_table_laws.specs.Hold.{words_in};
ghost use Rattle.pair_words.specs.Places.{InTable};
ghost use Rattle.pair_child.specs.Finds.{taken_at, ScannedTo, Makes, claim_in, Childed};

use pair_words::{has_record, need, own, put, word};
use walk_table::Record;

// What is in use: how many nodes, and a record before which no record is free.
#[derive(Clone, Copy)]
pub struct Stock {
    pub nodes: usize,
    pub low: usize,
}

// A node, and what is in use then.
#[derive(Clone, Copy)]
pub struct Located {
    pub node: usize,
    pub stock: Stock,
}

// Whether record r, which is not the root's, is in use: a node has a parent.
fn taken(t: &[u32], r: usize) -> bool
    requires { r < 2 ^ 32 }
    ensures { result ≡ taken_at t.now r }
{
    has_record(t, r) && word(t, r, Record::PARENT) != 0
}

// The first record from here on that is not in use; the number of records, if all are.
fn free_from(t: &[u32], low: usize) -> usize
    requires { (low < 2 ^ 32) × (length t.now < 2 ^ 32) }
    ensures { ScannedTo t.now low result × (result < 2 ^ 32) }
{
    let mut r = low;
    while taken(t, r) {
        r += 1;
    }
    r
}

// Makes the child of u that stands in this word of its record, in the lowest free record. None if the table is full.
fn make(t: &mut [u32], q: usize, s: Stock, u: usize, place: usize, step: u32) -> Option<Located>
    requires in_table { InTable t.old u × (q < 2) × (place < 10) × (step + 1 < 2 ^ 32) }
    requires low_bound { (s.low < 2 ^ 32) × (s.nodes < 2 ^ 32) × (length t.old < 2 ^ 32) }
    ensures { Makes q t.old s u place step t.new result }
{
    let r = free_from(t, s.low);
    if !has_record(t, r) {
        return None;
    }
    put(t, u, place, (r + 1) as u32);
    put(t, r, Record::PARENT, (u + 1) as u32);
    need(t, q, r, step);
    let stock = Stock {
        nodes: s.nodes + 1,
        low: r + 1,
    };
    Some(Located { node: r, stock })
}

// Party q needs the node v from the step on, unless it does already.
fn claim(t: &mut [u32], q: usize, v: usize, step: u32)
    requires { InTable t.old v × (q < 2) × (step + 1 < 2 ^ 32) }
    ensures { t.new ≡ claim_in q t.old v step }
{
    if own(t, q, v, Record::NEED) == 0 {
        need(t, q, v, step);
    }
}

// The child of u that stands in this word of its record, needed by party q: found, or made for the step. None if the table is
// full.
pub fn child(
    t: &mut [u32],
    q: usize,
    s: Stock,
    u: usize,
    place: usize,
    step: u32,
) -> Option<Located>
    requires in_table { InTable t.old u × (q < 2) × (place < 10) × (step + 1 < 2 ^ 32) }
    requires low_bound { (s.low < 2 ^ 32) × (s.nodes < 2 ^ 32) × (length t.old < 2 ^ 32) }
    requires by_index { (v : ℕ) → words_in t.old u place ≡ suc v → InTable t.old v }
    ensures { Childed q t.old s u place step t.new result }
{
    let known = word(t, u, place) as usize;
    if known == 0 {
        return make(t, q, s, u, place, step);
    }
    claim(t, q, known - 1, step);
    Some(Located {
        node: known - 1,
        stock: s,
    })
}
