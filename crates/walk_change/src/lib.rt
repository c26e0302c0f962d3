// How many records the last step of a walk changed, read off the table that it left.
#![tactic(auto)]

ghost use Rattle.std.specs.Prelude.{not, ◌&&◌, List, [], ◌∷◌, ◌++◌, ◌≡◌, ℕ, suc, ◌+◌, ◌-◌, ◌*◌, ◌^◌, ◌<◌, ◌≤◌, eqb, length, get_or};
ghost use Rattle.lists.specs.Lists.{tally};
ghost use Rattle.grid.specs.declared.Corner.{Corner as Node};
ghost use Rattle.layout.specs.Marks.{changes_of};
ghost use Rattle.layout.specs.Table.{width, word_at, HasRecord, parent_word, link_word, need_word};
ghost use Rattle.walk_step.specs.Spots.{Walked, Stepped};
ghost use Rattle.walk_change.specs.Above.{ParentHeld, LinkedIn, level_above};

use walk_step::Spot;
use walk_table::{Record, word};

// Whether the link of the parents, in the direction d of the parent of u, is the step's.
fn links_up(t: &[u32], u: usize, d: usize, step: u32) -> bool
    requires { HasRecord t.now u × (d < 4) × ParentHeld t.now u }
    ensures { result ≡ (not (eqb (get_or t.now (word_at u parent_word) 0) 0)
        && eqb (get_or t.now (word_at (get_or t.now (word_at u parent_word) 0 - 1) (link_word d)) 0) step) }
{
    let up = word(t, u, Record::PARENT) as usize;
    up != 0 && word(t, up - 1, Record::LINK_STEP + d) == step
}

// The two nodes of one level, and how many of them are not an end of the level below.
#[derive(Clone, Copy)]
pub struct Level {
    pub u: usize,
    pub v: usize,
    pub count: u32,
}

// The level above u and v, in a table with this many words for each record: the parent of u, and its neighbour in the direction
// d.
pub fn rise<const WORDS: usize>(t: &[u32], u: usize, v: usize, d: usize) -> Level
    requires { (suc u * WORDS ≤ length t.now) × (width ≤ WORDS) × (d < 4) × LinkedIn WORDS t.now u d }
    ensures { result ≡ level_above WORDS t.now u v d }
{
    let above = t[u * WORDS + Record::PARENT] as usize - 1;
    let beside = t[above * WORDS + Record::NEIGHBOUR + d] as usize - 1;
    let count = u32::from(above != v) + u32::from(beside != u);
    Level {
        u: above,
        v: beside,
        count,
    }
}

// 1 if the step made the node v, and the parent of v is not u.
fn above_made(t: &[u32], u: usize, v: usize, step: u32) -> u32
    requires { HasRecord t.now v × (u < 2 ^ 32) }
    ensures { result ≡ tally (eqb (get_or t.now (word_at v need_word) 0) step
        && not (eqb (get_or t.now (word_at v parent_word) 0) (u + 1))) }
{
    let made = word(t, v, Record::NEED) == step;
    u32::from(made && word(t, v, Record::PARENT) as usize != u + 1)
}

// How many records the last step changed, which went in the direction d: its two ends, the ends of the links that it made above
// them, and the parent of the topmost node that it made, each once.
pub fn changed(t: &[u32], w: Spot, d: u8) -> u32
    requires stepped { Stepped t.now w d }
    requires d_bound { (d < 4) × (w.steps < 65537) × (length t.now < 2 ^ 32) }
    ensures { (c : Node) (ds : List ℕ) → Walked t.now c (ds ++ (d ∷ [])) w
        → result ≡ changes_of c ds (ds ++ (d ∷ [])) }
{
    let step = w.steps as u32;
    let way = d as usize;
    let b = (way + 2) % 4;
    let mut v = w.node;
    let mut u = word(t, v, Record::NEIGHBOUR + b) as usize - 1;
    let mut sum: u32 = 2;
    while links_up(t, u, way, step) {
        let level = rise::<{ Record::WORDS }>(t, u, v, way);
        sum += level.count;
        u = level.u;
        v = level.v;
    }
    sum + above_made(t, u, v, step)
}
