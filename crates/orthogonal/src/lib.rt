// What the call that outlines the orthogonal hull of a room answers.
#![tactic(auto)]

use grid::Corner;

// The outline of a hull: how many steps it has, where it starts, and how many blocks are inside.
#[derive(Clone, Copy)]
pub struct Enclosed {
    pub steps: usize,
    pub start: Corner,
    pub blocks: usize,
}

// The grid sizes that are accepted.
#[derive(Clone, Copy)]
pub struct Grid;

impl Grid {
    // Panels along a side of a block at most.
    pub const MOST: u32 = 16384;
}
