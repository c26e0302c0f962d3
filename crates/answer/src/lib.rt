// What the calls answer, the numbers of refusals and verdicts (no other function distinguishes one refusal from another), and
// where a walk may start.
#![tactic(auto)]

ghost use Rattle.std.specs.Prelude.{◌≡◌, ◌<◌, leb, nat_abs};
ghost use Rattle.answer.specs.Limits.{most_start, start_fits};
ghost use Rattle.answer.specs.Refusal.{refusal_number, refusal_place, verdict_number};

use grid::Corner;

// Why a call is refused; a place counts from 0 in the input.
#[derive(Clone, Copy)]
pub enum Refusal {
    TooMany,
    Table,
    ResultRoom,
    BadDigit(usize),
    NothingToTake(usize),
    TooLong(usize),
    NoRoom(usize),
    HullRoom,
    BadLine,
    StartRange,
    OutlineRoom,
    NotRoom,
    PolygonRoom,
    FileLength,
    FileKind,
    BadCoordinate,
    BadRing,
    ChainRoom,
    RetiredKind,
    UnknownParty(usize),
    SpanRoom,
    GridSize,
}

// What the surviving steps make of the walk.
#[derive(Clone, Copy)]
pub enum Verdict {
    Nowhere,
    Open,
    Room,
    OpenMeeting,
    ClosedMeeting,
    ThereAndBack,
}

// The facts of an accepted walk: j and k are the first meeting, 65,535 twice if there is none.
#[derive(Clone, Copy)]
pub struct Facts {
    pub verdict: Verdict,
    pub steps: usize,
    pub nodes: usize,
    pub corners: usize,
    pub j: usize,
    pub k: usize,
    pub area: i32,
    pub last: Corner,
}

// The facts of one party's walk in a table that two parties share.
#[derive(Clone, Copy)]
pub struct PartyFacts {
    pub verdict: Verdict,
    pub steps: usize,
    pub corners: usize,
    pub j: usize,
    pub k: usize,
    pub area: i32,
    pub last: Corner,
}

// The facts of an accepted call of two parties: the nodes that either needs, once, and what each party has.
#[derive(Clone, Copy)]
pub struct PairFacts {
    pub nodes: usize,
    pub first: PartyFacts,
    pub second: PartyFacts,
}

// The refusal's number.
pub fn refusal_number(r: Refusal) -> usize
    ensures { (result ≡ refusal_number r) × (result < 128) }
{
    match r {
        Refusal::TooMany => 1,
        Refusal::Table => 2,
        Refusal::ResultRoom => 3,
        Refusal::BadDigit(_) => 4,
        Refusal::NothingToTake(_) => 5,
        Refusal::TooLong(_) => 6,
        Refusal::NoRoom(_) => 7,
        Refusal::HullRoom => 8,
        Refusal::BadLine => 9,
        Refusal::StartRange => 10,
        Refusal::OutlineRoom => 11,
        Refusal::NotRoom => 12,
        Refusal::PolygonRoom => 13,
        Refusal::FileLength => 14,
        Refusal::FileKind => 15,
        Refusal::BadCoordinate => 16,
        Refusal::BadRing => 17,
        Refusal::ChainRoom => 18,
        Refusal::RetiredKind => 19,
        Refusal::UnknownParty(_) => 20,
        Refusal::SpanRoom => 21,
        Refusal::GridSize => 22,
    }
}

// Its place, 0 if it has none.
pub fn refusal_place(r: Refusal) -> usize
    ensures { result ≡ refusal_place r }
{
    match r {
        Refusal::TooMany => 0,
        Refusal::Table => 0,
        Refusal::ResultRoom => 0,
        Refusal::BadDigit(i) => i,
        Refusal::NothingToTake(i) => i,
        Refusal::TooLong(i) => i,
        Refusal::NoRoom(i) => i,
        Refusal::HullRoom => 0,
        Refusal::BadLine => 0,
        Refusal::StartRange => 0,
        Refusal::OutlineRoom => 0,
        Refusal::NotRoom => 0,
        Refusal::PolygonRoom => 0,
        Refusal::FileLength => 0,
        Refusal::FileKind => 0,
        Refusal::BadCoordinate => 0,
        Refusal::BadRing => 0,
        Refusal::ChainRoom => 0,
        Refusal::RetiredKind => 0,
        Refusal::UnknownParty(i) => i,
        Refusal::SpanRoom => 0,
        Refusal::GridSize => 0,
    }
}

// The verdict's number.
pub fn verdict_number(v: Verdict) -> usize
    ensures { result ≡ verdict_number v }
{
    match v {
        Verdict::Nowhere => 0,
        Verdict::Open => 1,
        Verdict::Room => 2,
        Verdict::OpenMeeting => 3,
        Verdict::ClosedMeeting => 4,
        Verdict::ThereAndBack => 5,
    }
}

// The limits of the calls.
#[derive(Clone, Copy)]
pub struct Limits;

impl Limits {
    // Input bytes at most.
    pub const MOST_INPUT: usize = 32768;

    // Surviving steps at most, at any moment.
    pub const MOST_STEPS: usize = 16384;

    // Records of a table at most: eight for each corner of the longest walk, and 68 for its start.
    pub const MOST_RECORDS: usize = 8 * (Limits::MOST_STEPS + 1) + 68;

    // Records at most of a table that two parties share.
    pub const MOST_PAIR_RECORDS: usize = 2 * Limits::MOST_RECORDS;
}

// The start of a walk.
#[derive(Clone, Copy)]
pub struct Start;

impl Start {
    // Its coordinates at most and at least.
    pub const MOST: i32 = 16384;

    const LEAST: i32 = -Start::MOST;
}

// Whether x may be a coordinate of a start. Both ends are compared: the least number has no magnitude of its type.
fn in_range(x: i32) -> bool
    ensures { result ≡ leb (nat_abs x) most_start }
{
    if x < Start::LEAST {
        return false;
    }
    x <= Start::MOST
}

// Whether a walk may start at c.
pub fn start_fits(c: Corner) -> bool
    ensures { result ≡ start_fits c }
{
    let x = c.0;
    let y = c.1;
    if !in_range(x) {
        return false;
    }
    in_range(y)
}
