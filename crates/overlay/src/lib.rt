// The parts of the panels of two rooms that are laid over each other, and what the call that lists them answers.
#![tactic(auto)]

// In the first room only, in the second only, in both.
#[derive(Clone, Copy)]
pub enum Part {
    First,
    Second,
    Both,
}

// How many panels a part has, and how many spans.
#[derive(Clone, Copy)]
pub struct Measure {
    pub panels: usize,
    pub spans: usize,
}

// That of each part.
#[derive(Clone, Copy)]
pub struct Measures {
    pub first: Measure,
    pub second: Measure,
    pub both: Measure,
}
