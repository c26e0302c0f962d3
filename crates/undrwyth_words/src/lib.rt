// The numbers of each answer, as C gets them.
#![tactic(auto)]

ghost use Rattle.std.specs.Prelude.{◌≡◌, ◌^◌, Ok, ◌<◌, ◌≤◌};
ghost use Rattle.answer.specs.Refusal.{judged_place, refusal_place};
ghost use Rattle.answer.specs.Words.{facts_words, answer_words, counted_words, judged_words};
ghost use Rattle.polygon_ring.specs.Words.{given_words};
ghost use Rattle.overlay.specs.Call.{overlaid_words};
ghost use Rattle.orthogonal.specs.Call.{orthogonal_words};
ghost use Rattle.pair.specs.Words.{party_words, pair_answer_words};
ghost use Rattle.undrwyth_words.specs.Words.{refused_words, AnswerFits, PartyFits, PairFits, PairAnswerFits, CountedFits, GivenFits, MeasuresFit, OverlaidFits, EnclosedFits, OrthogonalFits};

use answer::{Facts, PairFacts, PartyFacts, Refusal};
use line_fields::hex::bits;
use orthogonal::Enclosed;
use overlay::Measures;
use polygon_ring::Found;

// The numbers of a refusal: its number and place, and 0 in all other words.
fn refused<const N: usize>(r: Refusal) -> [u32; N]
    requires enough { 2 ≤ N }
    requires place { refusal_place r < 2 ^ 32 }
    ensures { result ≡ refused_words N r }
{
    let mut words = [0; N];
    words[0] = answer::refusal_number(r) as u32;
    words[1] = answer::refusal_place(r) as u32;
    words
}

// The numbers of an accepted walk.
fn facts_words(f: Facts) -> [u32; 11]
    requires { (f.steps < 2 ^ 32) × (f.nodes < 2 ^ 32) × (f.corners < 2 ^ 32) × (f.j < 2 ^ 32) × (f.k < 2 ^ 32) }
    ensures { result ≡ facts_words f }
{
    let v = f.verdict;
    let verdict = answer::verdict_number(v) as u32;
    let last = f.last;
    let area = bits(f.area);
    let x = bits(last.0);
    let y = bits(last.1);
    [
        0,
        0,
        verdict,
        f.steps as u32,
        f.nodes as u32,
        f.corners as u32,
        f.j as u32,
        f.k as u32,
        area,
        x,
        y,
    ]
}

// The numbers of a walk's answer.
pub fn walk_words(a: Result<Facts, Refusal>) -> [u32; 11]
    requires { AnswerFits a }
    ensures { result ≡ answer_words a }
{
    match a {
        Ok(f) => facts_words(f),
        Err(r) => refused(r),
    }
}

// The numbers of one of two parties.
fn party_words(f: PartyFacts) -> [u32; 8]
    requires { PartyFits f }
    ensures { result ≡ party_words f }
{
    let v = f.verdict;
    let verdict = answer::verdict_number(v) as u32;
    let last = f.last;
    let area = bits(f.area);
    let x = bits(last.0);
    let y = bits(last.1);
    [
        verdict,
        f.steps as u32,
        f.corners as u32,
        f.j as u32,
        f.k as u32,
        area,
        x,
        y,
    ]
}

// The numbers of two parties that are accepted.
fn pair_facts_words(f: PairFacts) -> [u32; 19]
    requires { PairFits f }
    ensures { result ≡ pair_answer_words (Ok f) }
{
    let first = f.first;
    let second = f.second;
    let a = party_words(first);
    let b = party_words(second);
    [
        0,
        0,
        f.nodes as u32,
        a[0],
        a[1],
        a[2],
        a[3],
        a[4],
        a[5],
        a[6],
        a[7],
        b[0],
        b[1],
        b[2],
        b[3],
        b[4],
        b[5],
        b[6],
        b[7],
    ]
}

// The numbers of the answer to two parties.
pub fn pair_answer_words(a: Result<PairFacts, Refusal>) -> [u32; 19]
    requires { PairAnswerFits a }
    ensures { result ≡ pair_answer_words a }
{
    match a {
        Ok(f) => pair_facts_words(f),
        Err(r) => refused(r),
    }
}

// The numbers of the answer of a call that counts.
pub fn counted_words(c: Result<usize, Refusal>) -> [u32; 3]
    requires { CountedFits c }
    ensures { result ≡ counted_words c }
{
    match c {
        Ok(n) => [0, 0, n as u32],
        Err(r) => refused(r),
    }
}

// The numbers of a polygon that is accepted.
fn found_words(f: Found) -> [u32; 5]
    requires { f.steps < 2 ^ 32 }
    ensures { result ≡ given_words (Ok f) }
{
    let start = f.start;
    let x = bits(start.0);
    let y = bits(start.1);
    [0, 0, f.steps as u32, x, y]
}

// The numbers of the answer to a polygon that is read.
pub fn given_words(g: Result<Found, Refusal>) -> [u32; 5]
    requires { GivenFits g }
    ensures { result ≡ given_words g }
{
    match g {
        Ok(f) => found_words(f),
        Err(r) => refused(r),
    }
}

// The numbers of three lists.
fn measures_words(m: Measures) -> [u32; 8]
    requires { MeasuresFit m }
    ensures { result ≡ overlaid_words (Ok m) }
{
    let f = m.first;
    let g = m.second;
    let h = m.both;
    [
        0,
        0,
        f.panels as u32,
        g.panels as u32,
        h.panels as u32,
        f.spans as u32,
        g.spans as u32,
        h.spans as u32,
    ]
}

// The numbers of the answer to two rooms.
pub fn overlaid_words(o: Result<Measures, Refusal>) -> [u32; 8]
    requires { OverlaidFits o }
    ensures { result ≡ overlaid_words o }
{
    match o {
        Ok(m) => measures_words(m),
        Err(r) => refused(r),
    }
}

// The numbers of an outline of a hull.
fn enclosed_words(h: Enclosed) -> [u32; 6]
    requires { EnclosedFits h }
    ensures { result ≡ orthogonal_words (Ok h) }
{
    let start = h.start;
    let x = bits(start.0);
    let y = bits(start.1);
    [0, 0, h.steps as u32, x, y, h.blocks as u32]
}

// The numbers of the answer of the orthogonal hull.
pub fn orthogonal_words(o: Result<Enclosed, Refusal>) -> [u32; 6]
    requires { OrthogonalFits o }
    ensures { result ≡ orthogonal_words o }
{
    match o {
        Ok(h) => enclosed_words(h),
        Err(r) => refused(r),
    }
}

// The numbers of a conversion's answer.
pub fn turns_words(j: Result<(), Refusal>) -> [u32; 2]
    requires { judged_place j < 2 ^ 32 }
    ensures { result ≡ judged_words j }
{
    match j {
        Ok(()) => [0, 0],
        Err(r) => refused(r),
    }
}
