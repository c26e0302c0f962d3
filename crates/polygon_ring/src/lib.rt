// What a polygon that is read is kept as until it is judged, and what is answered of it.
#![tactic(auto)]

use answer::{Limits, Start};
use grid::Corner;

// What a polygon of one ring begins with if the highest byte comes first: byte order 0, type 3 and ring count 1.
pub const BIG_PREFIX: [u8; 9] = *b"\x00\x00\x00\x00\x03\x00\x00\x00\x01";

// A point of a ring, until it is judged.
#[derive(Clone, Copy)]
pub struct Point {
    pub x: f64,
    pub y: f64,
}

impl Point {
    // How far from 0 a coordinate may lie, in panels: that of the first point, and that of any other.
    pub const MOST_FIRST: u64 = Start::MOST as u64;

    pub const MOST: u64 = Point::MOST_FIRST + Limits::MOST_STEPS as u64;
}

// The order of a polygon's bytes.
#[derive(Clone, Copy)]
pub enum Order {
    Little,
    Big,
}

// A walk out of a polygon: where it starts, and how many steps it has.
#[derive(Clone, Copy)]
pub struct Found {
    pub start: Corner,
    pub steps: usize,
}
