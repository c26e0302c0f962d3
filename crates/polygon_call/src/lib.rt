// Rooms out as polygons: numbers, points and rings written into a buffer, and the call.
#![tactic(auto)]

ghost use Rattle.std.specs.Prelude.{◌≡◌, not, ◌++◌, ◌+◌, ◌*◌, ◌≤◌, ◌<◌, T, nat_abs, length, drop, get_or};
ghost use Rattle.std.specs.Float.Ieee.{is_nan, to_bits};
ghost use Rattle.std.specs.Float.{binary64};
ghost use Rattle.lists.specs.Lists.{tally, Below};
ghost use Rattle.answer.specs.Limits.{most_steps, farthest};
ghost use Rattle.polygon.specs.Bytes.{bytes_of};
ghost use Rattle.polygon.specs.Coordinate.{coordinate_of};
ghost use Rattle.polygon.specs.Polygon.{point_bytes, points_bytes, prefix, bends, bends_of, points_of, PolygonCall};
ghost use Rattle.polygon_laws.specs.Bends.{Drawable, turning, point_laid, Drawn};

use answer::Refusal;
use grid::Corner;
use walk_corner::moved;

const SIDE: i32 = polygon::SIDE as i32;

// 600 times x, exactly.
fn millimetres(x: i32) -> f64
    requires { nat_abs x ≤ farthest }
    ensures { result ≡ coordinate_of x }
{
    f64::from(SIDE * x)
}

// Writes the four bytes of n at the start of buf, the lowest first.
fn put_count(buf: &mut [u8], n: u32)
    requires { 4 ≤ length buf.old }
    ensures { buf.new ≡ bytes_of 4 n ++ drop 4 buf.old }
{
    buf[..4].copy_from_slice(&n.to_le_bytes());
}

// Writes the eight bytes of x at the start of buf, the lowest first.
fn put_float(buf: &mut [u8], x: f64)
    requires { (8 ≤ length buf.old) × T (not (is_nan x)) }
    ensures { buf.new ≡ bytes_of 8 (to_bits binary64 x) ++ drop 8 buf.old }
{
    buf[..8].copy_from_slice(&x.to_bits().to_le_bytes());
}

// Writes the sixteen bytes of the corner c at the start of buf.
fn put_point(buf: &mut [u8], c: Corner)
    requires { (16 ≤ length buf.old) × (nat_abs c.0 ≤ farthest) × (nat_abs c.1 ≤ farthest) }
    ensures { buf.new ≡ point_bytes c ++ drop 16 buf.old }
{
    put_float(buf, millimetres(c.0));
    put_float(&mut buf[8..], millimetres(c.1));
}

// Writes the nine bytes of the prefix at the start of buf.
fn put_prefix(buf: &mut [u8])
    requires { 9 ≤ length buf.old }
    ensures { buf.new ≡ prefix ++ drop 9 buf.old }
{
    // a loop: of `copy_from_slice` from a constant the compiler makes a WebAssembly module that is not valid
    let p = polygon::PREFIX;
    for i in 0..9 {
        buf[i] = p[i];
    }
}

// The first step of a chain, 0 if there is none.
fn first(chain: &[u8]) -> u8
    ensures { result ≡ get_or chain.now 0 0 }
{
    // no `first()`: an `Option` of a reference is laid out otherwise in the module for 32-bit WebAssembly
    if chain.is_empty() { 0 } else { chain[0] }
}

// Whether the step d goes another way than the step a.
fn bent(a: u8, d: u8) -> bool
    requires { (a < 4) × (d < 4) }
    ensures { result ≡ bends a d }
{
    a != d
}

// How many later corners of the chain have a turn that is not 0. They are counted in 16 bits, so that the compiler counts eight
// at once.
fn count(chain: &[u8]) -> usize
    requires { Below 4 chain.now × (length chain.now ≤ most_steps) }
    ensures { result ≡ turning chain.now }
{
    let mut last = first(chain);
    let mut k: u16 = 0;
    for &d in chain {
        k += u16::from(bent(last, d));
        last = d;
    }
    usize::from(k)
}

// Writes c as point k of buf if it is a bend, and answers how many points there are then.
fn put_bend(buf: &mut [u8], k: usize, bend: bool, c: Corner) -> usize
    requires { (16 * (k + tally bend) ≤ length buf.old) × (nat_abs c.0 ≤ farthest) × (nat_abs c.1 ≤ farthest) }
    ensures { (result ≡ k + tally bend) × (buf.new ≡ point_laid buf.old k bend c) }
{
    if bend {
        put_point(&mut buf[16 * k..], c);
        return k + 1;
    }
    k
}

// Writes the later corners with a turn that is not 0 at the start of buf, and answers how many.
fn put_bends(buf: &mut [u8], start: Corner, chain: &[u8]) -> usize
    requires { Drawable start chain.now × (16 * turning chain.now ≤ length buf.old) }
    ensures { (result ≡ turning chain.now)
        × (buf.new ≡ points_bytes (bends_of start chain.now)
        ++ drop (16 * turning chain.now) buf.old) }
{
    let mut at = start;
    let mut last = first(chain);
    let mut k = 0;
    for &d in chain {
        k = put_bend(buf, k, bent(last, d), at);
        at = moved(at, d);
        last = d;
    }
    k
}

// Writes the points of the ring at the start of buf: the start, the bends, and the start again.
fn put_ring(buf: &mut [u8], start: Corner, chain: &[u8])
    requires { Drawable start chain.now × (16 * (turning chain.now + 2) ≤ length buf.old) }
    ensures { buf.new ≡ points_bytes (points_of start chain.now)
        ++ drop (16 * (turning chain.now + 2)) buf.old }
{
    put_point(buf, start);
    let k = put_bends(&mut buf[16..], start, chain);
    put_point(&mut buf[16 * (k + 1)..], start);
}

// Writes the polygon of a walk at the start of out, unless out is too short.
fn draw(start: Corner, chain: &[u8], out: &mut [u8]) -> Result<usize, Refusal>
    requires { Drawable start chain.now }
    ensures { Drawn start chain.now out.old result out.new }
{
    let n = count(chain) + 2;
    if out.len() < 13 + 16 * n {
        return Err(Refusal::PolygonRoom);
    }
    put_prefix(out);
    put_count(&mut out[9..], n as u32);
    put_ring(&mut out[13..], start, chain);
    Ok(13 + 16 * n)
}

// Writes a room as a polygon at the start of out, and answers how many bytes it has.
pub fn write(start: Corner, chain: &[u8], out: &mut [u8]) -> Result<usize, Refusal>
    ensures { PolygonCall start chain.now out.old result out.new }
{
    room_judge::judge(start, chain)?;
    draw(start, chain, out)
}
