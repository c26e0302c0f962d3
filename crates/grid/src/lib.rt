// Corners and panels: the grid points of the floor, and its unit squares. Each is a type of its own, so that neither can be
// passed if the other is expected.
#![tactic(auto)]

// A grid point: x to the east, y to the north.
#[derive(Clone, Copy, PartialEq, Eq)]
pub struct Corner(pub i32, pub i32);

// The unit square whose lower left corner has these coordinates.
#[derive(Clone, Copy, PartialEq, Eq)]
pub struct Panel(pub i32, pub i32);
