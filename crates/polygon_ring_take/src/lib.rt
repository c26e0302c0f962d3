// Polygons in, of either byte order.
#![tactic(auto)]

ghost use Rattle.std.specs.Prelude.{◌≡◌, true, false, not, ◌*◌, ◌^◌, ◌≤◌, T, eqb, Some, length};
ghost use Rattle.std.specs.Float.{binary64};
ghost use Rattle.std.specs.Float.Ieee.{of_bits, is_nan};
ghost use Rattle.answer.specs.Limits.{farthest};
ghost use Rattle.polygon_ring.specs.Bytes.{number_in};
ghost use Rattle.polygon.specs.Coordinate.{scale, signed as signed_of};
ghost use Rattle.polygon_ring.specs.Coordinate.{whole_of};
ghost use Rattle.polygon_ring.specs.Ring.{both, order_of, point_in, corner_in, is_faulty};
ghost use Rattle.polygon_ring_laws.specs.Reading.{PointIs};
ghost use Rattle.polygon_ring_laws.specs.Fields.{float_kept, bits_kept, digits_in, places_in, in_reach, panels_shown, IsAccepted};

use grid::Corner;
use polygon_ring::{Order, Point};

// The byte order of the polygon s, by its first nine bytes; None if they begin no polygon of one ring in either order.
pub fn order(s: &[u8]) -> Option<Order>
    ensures { result ≡ order_of s.now }
{
    if s.starts_with(&polygon::PREFIX) {
        return Some(Order::Little);
    }
    if s.starts_with(&polygon_ring::BIG_PREFIX) {
        return Some(Order::Big);
    }
    None
}

// The number with the bytes of s, the lowest first.
fn little(s: &[u8]) -> u64
    requires { length s.now ≤ 8 }
    ensures { result ≡ number_in true s.now }
{
    let mut v = 0u64;
    for i in (0..s.len()).rev() {
        v = v * 256 + u64::from(s[i]);
    }
    v
}

// The number with the bytes of s, the highest first.
fn big(s: &[u8]) -> u64
    requires { length s.now ≤ 8 }
    ensures { result ≡ number_in false s.now }
{
    let mut v = 0u64;
    for &d in s {
        v = v * 256 + u64::from(d);
    }
    v
}

// The number with the bytes of s, in their order.
pub fn number(s: &[u8], first_lowest: bool) -> u64
    requires { length s.now ≤ 8 }
    ensures { result ≡ number_in first_lowest s.now }
{
    if first_lowest { little(s) } else { big(s) }
}

// The number with the eight bytes of s, in their order: they are read the lowest first, and swapped if that is the other order.
fn eight(s: &[u8], first_lowest: bool) -> u64
    requires { length s.now ≡ 8 }
    ensures { result ≡ number_in first_lowest s.now }
{
    let v = little(s);
    if first_lowest { v } else { v.swap_bytes() }
}

// These bits, or those of an infinity if they are not those of a number.
fn kept(bits: u64) -> u64
    ensures { result ≡ bits_kept bits }
{
    if 0x7ff0_0000_0000_0000 < bits % SIGN {
        0x7ff0_0000_0000_0000
    } else {
        bits
    }
}

// The float with these bits, as it is kept: an infinity for what is not a number.
fn float_of(bits: u64) -> f64
    ensures { result ≡ float_kept bits }
{
    f64::from_bits(kept(bits))
}

// A float's bits: the highest is its sign, and under the next eleven, its exponent, stand the digits after the leading one.
const SIGN: u64 = 0x8000_0000_0000_0000;

const LEAD: u64 = 0x10_0000_0000_0000;

const SIDE: u64 = polygon::SIDE as u64;

// The digits with the leading one.
fn digits(size: u64) -> u64
    ensures { result ≡ digits_in size }
{
    LEAD + size % LEAD
}

// Whether the exponent is one that 600 to 600 * 32,768 have.
fn in_reach(size: u64) -> bool
    ensures { result ≡ in_reach size }
{
    let exponent = size / LEAD;
    if exponent < 1032 {
        return false;
    }
    exponent <= 1047
}

// How many panels the digits before the point hold.
fn panels(size: u64) -> u64
    requires { in_reach size ≡ true }
    ensures { result ≡ panels_shown size }
{
    (digits(size) >> (1075 - size / LEAD)) / SIDE
}

// Whether the panels that the digits hold have all of them.
fn is_all(n: u64, size: u64) -> bool
    requires { (in_reach size ≡ true) × (n ≡ panels_shown size) }
    ensures { result ≡ eqb (scale * n * 2 ^ places_in size) (digits_in size) }
{
    (SIDE * n) << (1075 - size / LEAD) == digits(size)
}

// The number n with a sign.
fn signed(n: u64, below: bool) -> i32
    requires { n ≤ farthest }
    ensures { result ≡ signed_of below n }
{
    let k = n as i32;
    if below { -k } else { k }
}

// The coordinate that x is: its bits are those of 600 times a whole number. None if they are not, or if the number lies more than
// `most` from 0.
fn whole_of(x: f64, most: u64) -> Option<i32>
    requires { (most ≤ farthest) × T (not (is_nan x)) }
    ensures { result ≡ whole_of most x }
{
    let bits = f64::to_bits(x);
    let size = bits % SIGN;
    if size == 0 {
        return Some(0);
    }
    if !in_reach(size) {
        return None;
    }
    let n = panels(size);
    if most < n {
        return None;
    }
    if is_all(n, size) {
        Some(signed(n, SIGN <= bits))
    } else {
        None
    }
}

// What the point p is as a corner; None if one of its numbers is not a coordinate, or lies more than `most` from 0.
pub fn judge(p: Point, most: u64) -> Option<Corner>
    requires { (most ≤ farthest) × T (not (is_nan p.x)) × T (not (is_nan p.y)) }
    ensures { result ≡ both (whole_of most p.x) (whole_of most p.y) }
{
    let x = whole_of(p.x, most)?;
    let y = whole_of(p.y, most)?;
    Some(Corner(x, y))
}

// The point at the start of s.
pub fn point(s: &[u8], little: bool) -> Point
    requires { 16 ≤ length s.now }
    ensures { PointIs «little» s.now result }
{
    let x = float_of(eight(&s[0..8], little));
    let y = float_of(eight(&s[8..16], little));
    Point { x, y }
}

// The coordinate that the eight bytes of s are, if they were accepted before.
fn known(s: &[u8], little: bool) -> i32
    requires { (length s.now ≡ 8) × IsAccepted (of_bits binary64 (number_in «little» s.now)) }
    ensures { Some result ≡ whole_of farthest (of_bits binary64 (number_in «little» s.now)) }
{
    let bits = eight(s, little);
    let unsigned = bits % SIGN;
    if unsigned == 0 {
        return 0;
    }
    signed(panels(unsigned), SIGN <= bits)
}

// The corner that the point at the start of s is, if it was accepted before.
pub fn corner(s: &[u8], little: bool) -> Corner
    requires { (16 ≤ length s.now) × (is_faulty (point_in farthest «little» s.now) ≡ false) }
    ensures { result ≡ corner_in (point_in farthest «little» s.now) }
{
    let x = known(&s[0..8], little);
    let y = known(&s[8..16], little);
    Corner(x, y)
}
