// Two parties follow their operations in one table, one operation after the other, and each is marked.
#![tactic(auto)]

ghost use Rattle.std.specs.Prelude.{List, ◌≡◌, ℕ, suc, ◌+◌, ◌*◌, ◌%◌, ◌^◌, ◌<◌, ◌≤◌, length, Ok, set};
ghost use Rattle.answer.specs.Limits.{most_input};
ghost use Rattle.grid.specs.declared.Corner.{Corner as Node};
ghost use Rattle.layout.specs.Marks.{mark_words};
ghost use Rattle.layout.specs.Table.{visits_word};
ghost use Rattle.pair_steps.specs.Parties.{bytes_judged};
ghost use Rattle.pair_table.specs.Slots.{Slot};
ghost use Rattle.pair_table.specs.Words.{pair_width};
ghost use Rattle.pair_table_laws.specs.Hold.{of_party, words_in};
ghost use Rattle.pair_words.specs.Places.{InTable};
ghost use Rattle.pair_run.specs.Runs.{PairKept, PairReady, PairActed, PairPerformed, PairStarts, PairRan};

use answer::Refusal;
use pair_child::Stock;
use pair_move::{Party, Stride};
use walk_step::Walk;
use walk_table::Record;

// Both parties, and what is in use.
#[derive(Clone, Copy)]
pub struct Pair {
    pub first: Party,
    pub second: Party,
    pub stock: Stock,
}

// A party after an operation, what is in use then, and how many records changed.
#[derive(Clone, Copy)]
struct PairTurn {
    stride: Stride,
    changed: u32,
}

// A step of party q. None if the table is full.
fn step(t: &mut [u32], chain: &mut [u8], q: usize, w: Stride, d: u8) -> Option<PairTurn>
    requires { PairReady t.old chain.old q w.party w.stock d × (d < 4) }
    ensures { (c e : Node) (ds es : List ℕ) (slots : List Slot)
        → PairKept t.old chain.old c e ds es slots q w.party w.stock
        → PairActed (length t.old) c e ds es slots q d t.new chain.new result }
{
    chain[w.party.steps] = d;
    let stride = pair_move::advance(t, q, w, d)?;
    let changed = pair_change::changed(t, q, stride.party, d);
    Some(PairTurn { stride, changed })
}

// One operation of party q: 4 takes its last surviving step back, any other is a step. None if the table is full.
fn apply(t: &mut [u32], chain: &mut [u8], q: usize, w: Stride, op: u8) -> Option<PairTurn>
    requires { PairReady t.old chain.old q w.party w.stock op }
    ensures { (c e : Node) (ds es : List ℕ) (slots : List Slot)
        → PairKept t.old chain.old c e ds es slots q w.party w.stock
        → PairActed (length t.old) c e ds es slots q op t.new chain.new result }
{
    if op != 4 {
        return step(t, chain, q, w, op);
    }
    let d = chain[w.party.steps - 1];
    let changed = pair_change::changed(t, q, w.party, d);
    let stride = pair_move::withdraw(t, q, w, d);
    Some(PairTurn { stride, changed })
}

// The mark at place i: the nodes in use, the visits of party q at the corner that it stands on, and the records that changed.
fn mark(t: &[u32], marks: &mut [u32], q: usize, x: Stride, i: usize, changed: u32)
    requires { InTable t.now x.party.node × (q < 2) × (mark_words * i + 2 < length marks.old)
        × (x.stock.nodes < 2 ^ 32) × (i < 2 ^ 32) }
    ensures { marks.new ≡ set (set (set marks.old (mark_words * i) x.stock.nodes) (mark_words * i + 1)
        (words_in t.now x.party.node (of_party q visits_word))) (mark_words * i + 2) changed }
{
    marks[Walk::MARK_WORDS * i] = x.stock.nodes as u32;
    marks[Walk::MARK_WORDS * i + 1] = pair_words::own(t, q, x.party.node, Record::VISITS);
    marks[Walk::MARK_WORDS * i + 2] = changed;
}

// One operation of party q at place i: done, and then marked. Refuses it, as "no room", if the table is full.
fn perform(
    t: &mut [u32],
    marks: &mut [u32],
    chain: &mut [u8],
    q: usize,
    w: Stride,
    op: u8,
    i: usize,
) -> Result<Stride, Refusal>
    requires { PairReady t.old chain.old q w.party w.stock op × (mark_words * suc i ≤ length marks.old) × (i < 2 ^ 32) }
    ensures { (c e : Node) (ds es : List ℕ) (slots : List Slot)
        → PairKept t.old chain.old c e ds es slots q w.party w.stock
        → PairPerformed (length t.old) marks.old i c e ds es slots q op t.new marks.new
        chain.new result }
{
    let x = apply(t, chain, q, w, op).ok_or(Refusal::NoRoom(i))?;
    mark(t, marks, q, x.stride, i, x.changed);
    Ok(x.stride)
}

// All operations, one after the other, from the table of both parties with no step. Refuses the first for which the table is too
// small, as "no room".
pub fn run(
    ops: &[u8],
    t: &mut [u32],
    marks: &mut [u32],
    first: &mut [u8],
    second: &mut [u8],
    start: Pair,
) -> Result<Pair, Refusal>
    requires pair_starts { PairStarts t.old first.old second.old start × (bytes_judged 0 0 0 ops.now ≡ Ok tt) }
    requires t_len_bound { (length t.old < 2 ^ 32) × (length t.old % pair_width ≡ 0) × (length ops.now ≤ most_input) }
    requires marks_len { (length marks.old ≡ mark_words * length ops.now) × (length first.old ≡ length ops.now)
        × (length second.old ≡ length ops.now) }
    ensures { PairRan (length t.old) start.first.at start.second.at ops.now t.new
        marks.new first.new second.new result }
{
    let mut one = start.first;
    let mut two = start.second;
    let mut stock = start.stock;
    for (i, &op) in ops.iter().enumerate() {
        if op < 16 {
            let w = Stride { party: one, stock };
            let x = perform(t, marks, first, 0, w, op, i)?;
            one = x.party;
            stock = x.stock;
        } else {
            let w = Stride { party: two, stock };
            let x = perform(t, marks, second, 1, w, op - 16, i)?;
            two = x.party;
            stock = x.stock;
        }
    }
    Ok(Pair {
        first: one,
        second: two,
        stock,
    })
}
