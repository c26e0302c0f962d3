// Rings in, in two passes over the points: the first judges them and their neighbours, the second writes the chain. No pass keeps
// more than three corners.
#![tactic(auto)]

ghost use Rattle.std.specs.Prelude.{◌≡◌, ◌&&◌, false, cond, ◌++◌, ◌+◌, ◌-◌, ◌*◌, ◌≤◌, ◌<◌, eqb, leb, nat_abs, ◌-ℤ◌, Some, length, drop, replicate};
ghost use Rattle.std.specs.Int.Signed.{lt_z};
ghost use Rattle.answer.specs.Limits.{farthest};
ghost use Rattle.grid.specs.Grid.{eq_z, same};
ghost use Rattle.lists.specs.Lists.{any};
ghost use Rattle.polygon_ring.specs.Ring.{is_little, point_at, points_from, is_faulty, corner_in, straight, apart, direction_of, length_of, chain_of_points, count_in, given_of, ReadCall};
ghost use Rattle.polygon_ring_laws.specs.Reading.{PointFits, ring_from, capped, ring_judged, ReadIn};
ghost use Rattle.polygon_ring_call.specs.Measure.{measured_by, measured_of};

use answer::{Limits, Refusal};
use grid::Corner;
use polygon_ring::{Found, Order, Point};
use polygon_ring_take::{corner, judge, number, order, point};

// Stands for any number of steps above 16,384.
const MANY: usize = Limits::MOST_STEPS + 1;

fn equal(x: i32, y: i32) -> bool
    ensures { result ≡ eq_z x y }
{
    x == y
}

fn less(x: i32, y: i32) -> bool
    ensures { result ≡ lt_z x y }
{
    x < y
}

fn gap(x: i32, y: i32) -> usize
    requires { (nat_abs x ≤ farthest) × (nat_abs y ≤ farthest) }
    ensures { result ≡ nat_abs (y -ℤ x) }
{
    x.abs_diff(y) as usize
}

// Whether a and b differ along exactly one axis.
fn is_straight(a: Corner, b: Corner) -> bool
    requires { PointFits a × PointFits b }
    ensures { result ≡ straight a b }
{
    let level = equal(a.1, b.1);
    if equal(a.0, b.0) { !level } else { level }
}

// How far apart a and b are.
fn distance(a: Corner, b: Corner) -> usize
    requires { PointFits a × PointFits b }
    ensures { result ≡ apart a b }
{
    gap(a.0, b.0) + gap(a.1, b.1)
}

// The direction of the way from x to y along an axis, if d is that of a way up.
fn along(x: i32, y: i32, d: u8) -> u8
    requires { d < 2 }
    ensures { result ≡ cond (lt_z x y) d (d + 2) }
{
    if less(x, y) { d } else { d + 2 }
}

// The direction of the way from a to b along one axis. Both axes are judged, so that nothing branches.
fn direction(a: Corner, b: Corner) -> u8
    requires { PointFits a × PointFits b }
    ensures { result ≡ direction_of a b }
{
    let level = along(a.0, b.0, 0);
    let upright = along(a.1, b.1, 1);
    if equal(a.0, b.0) { upright } else { level }
}

fn cap(n: usize) -> usize
    ensures { result ≡ capped n }
{
    n.min(MANY)
}

// Whether a and b differ along exactly one axis, and so it was before.
fn goes_on(line: bool, a: Corner, b: Corner) -> bool
    requires { PointFits a × PointFits b }
    ensures { result ≡ («line» && straight a b) }
{
    let straight = is_straight(a, b);
    if line { straight } else { false }
}

// What n points are, each on one line with the one before, if the ring begins at `first`, ends at `last` and has this many steps.
fn closed(n: usize, line: bool, first: Corner, last: Corner, steps: usize) -> Result<Found, Refusal>
    ensures { result ≡ measured_by false (leb 4 n && same last first && «line») first steps }
{
    if n < 4 || last != first || !line {
        return Err(Refusal::BadRing);
    }
    Ok(Found {
        start: first,
        steps,
    })
}

// Writes n times d at the start of buf.
fn fill(buf: &mut [u8], d: u8, n: usize)
    requires { n ≤ length buf.old }
    ensures { buf.new ≡ replicate n d ++ drop n buf.old }
{
    buf[..n].fill(d);
}

// The points of a file in this byte order, counted before: there are at least sixteen bytes for each.
#[derive(Clone, Copy)]
struct Points<'a> {
    bytes: &'a [u8],
    little: bool,
    n: usize,
    ghost whole: { 16 * n ≤ length bytes.now },
}

impl<'a> Points<'a> {
    // What the first point is as a corner.
    fn first(&self) -> Option<Corner>
        requires { 0 < self.now.n }
        ensures { result ≡ point_at self.now.little self.now.bytes.now 0 }
    {
        judge(point(self.bytes, self.little), Point::MOST_FIRST)
    }

    // What point i is as a corner, if it is not the first.
    fn later(&self, i: usize) -> Option<Corner>
        requires { (0 < i) × (i < self.now.n) }
        ensures { result ≡ point_at self.now.little self.now.bytes.now i }
    {
        judge(point(&self.bytes[16 * i..], self.little), Point::MOST)
    }

    // The corner that point i is, if it was accepted before.
    fn corner(&self, i: usize) -> Corner
        requires { (0 < i) × (i < self.now.n) × (is_faulty (point_at self.now.little self.now.bytes.now i) ≡ false) }
        ensures { result ≡ corner_in (point_at self.now.little self.now.bytes.now i) }
    {
        corner(&self.bytes[16 * i..], self.little)
    }

    // Judges the points and their neighbours, and adds up how far apart they are. Refuses 16 and 17.
    fn measure(&self) -> Result<Found, Refusal>
        ensures { result ≡ measured_of (points_from self.now.little self.now.bytes.now 0 self.now.n) }
    {
        if self.n == 0 {
            return Err(Refusal::BadRing);
        }
        let first = self.first().ok_or(Refusal::BadCoordinate)?;
        let mut a = first;
        let mut line = true;
        let mut steps = 0;
        for i in 1..self.n {
            let b = self.later(i).ok_or(Refusal::BadCoordinate)?;
            line = goes_on(line, a, b);
            steps = cap(steps + distance(a, b));
            a = b;
        }
        closed(self.n, line, first, a, steps)
    }

    // Judges the points, and answers start and number of steps. Refuses 16, 17, 6 and 18.
    fn survey(&self, size: usize) -> Result<Found, Refusal>
        ensures { result
            ≡ given_of (ring_judged (points_from self.now.little self.now.bytes.now 0 self.now.n) size)
            (ring_from self.now.little self.now.bytes.now 0 self.now.n) }
    {
        let found = self.measure()?;
        if found.steps > Limits::MOST_STEPS {
            return Err(Refusal::TooLong(Limits::MOST_STEPS));
        }
        if size < found.steps {
            return Err(Refusal::ChainRoom);
        }
        Ok(found)
    }

    // Writes the steps along the points, which were accepted before, at the start of out: the part that is left is lent for each
    // pair of neighbours.
    fn put_chain(&self, start: Corner, out: &mut [u8])
        requires { (0 < self.now.n) × (length_of (ring_from self.now.little self.now.bytes.now 0 self.now.n) ≤ length out.old)
            × (any is_faulty (points_from self.now.little self.now.bytes.now 0 self.now.n) ≡ false)
            × (start ≡ corner_in (point_at self.now.little self.now.bytes.now 0)) }
        ensures { out.new ≡ chain_of_points (ring_from self.now.little self.now.bytes.now 0 self.now.n)
            ++ drop (length_of (ring_from self.now.little self.now.bytes.now 0 self.now.n)) out.old }
    {
        let mut a = start;
        let mut at = 0;
        for i in 1..self.n {
            let b = self.corner(i);
            let k = distance(a, b);
            fill(&mut out[at..], direction(a, b), k);
            at += k;
            a = b;
        }
    }
}

// Whether the file has thirteen bytes and sixteen for each point counted. The product is not taken: it might not fit.
fn is_whole(file: &[u8], little: bool) -> bool
    requires { 13 ≤ length file.now }
    ensures { result ≡ eqb (length file.now) (13 + 16 * count_in little file.now) }
{
    let count = number(&file[9..13], little);
    let rest = file.len() - 13;
    if rest % 16 != 0 {
        return false;
    }
    count == (rest / 16) as u64
}

// Reads a file in this byte order. Refuses 14 by the length, and then what the survey refuses.
fn read_in(file: &[u8], little: bool, chain: &mut [u8]) -> Result<Found, Refusal>
    requires { 13 ≤ length file.now }
    ensures { ReadIn little file.now chain.old result chain.new }
{
    if !is_whole(file, little) {
        return Err(Refusal::FileLength);
    }
    let points = Points {
        bytes: &file[13..],
        little,
        n: (file.len() - 13) / 16,
    };
    let found = points.survey(chain.len())?;
    points.put_chain(found.start, chain);
    Ok(found)
}

fn is_little(o: Order) -> bool
    ensures { result ≡ is_little (Some o) }
{
    matches!(o, Order::Little)
}

// Reads a polygon of one ring: its start and number of steps are answered, its steps written at the start of chain.
pub fn read(file: &[u8], chain: &mut [u8]) -> Result<Found, Refusal>
    ensures { ReadCall file.now chain.old result chain.new }
{
    if file.len() < 13 {
        return Err(Refusal::FileLength);
    }
    let o = order(file).ok_or(Refusal::FileKind)?;
    read_in(file, is_little(o), chain)
}
