// What the sheet says of one line.
#![tactic(auto)]

ghost use Rattle.std.specs.Prelude.{◌≡◌, [], ◌+◌, ◌*◌, ◌≤◌, Err, Ok, length};
ghost use Rattle.lists.specs.Lists.{Below};
ghost use Rattle.line_frame.specs.Sizes.{most_digits, marks_words};
ghost use Rattle.line_fields.specs.Put.{Wrote};
ghost use Rattle.line_walk.specs.Walk.{Clear};
ghost use Rattle.sheet.specs.Sizes.{most_polygon, most_entry};
ghost use Rattle.sheet.specs.Entry.{polygon_cell, entry_by, entry_of};
ghost use Rattle.sheet.specs.Sheet.{entered};

use answer::{Facts, Refusal};
use grid::Corner;
use line_frame::Frame;
use line_walk::walk_line;
use sheet_cells::{Cell, spell_bytes, spell_cells, spell_refusal};

// The entries of the sheet.
#[derive(Clone, Copy)]
pub struct Entry;

impl Entry {
    // bytes of a frame's polygon at most: the header, and sixteen for each point, one more than the steps
    const MOST_POLYGON: usize = 13 + 16 * (Frame::MOST_DIGITS + 1);

    // bytes of an entry at most: nine cells, the sign of the area, two digits for each byte of the polygon, and the line feed
    pub const MOST: usize = 9 * Cell::MOST + 1 + 2 * Entry::MOST_POLYGON + 1;
}

// Writes the polygon of the steps in hexadecimal, if they are a room.
fn enter_polygon(steps: &[u8], out: &mut [u8], at: usize) -> usize
    requires below { Below 4 steps.now × (length steps.now ≤ most_digits) }
    requires most_polygon_in_bounds { at + 2 * most_polygon ≤ length out.old }
    ensures { Wrote (polygon_cell steps.now) at out.old result out.new }
{
    let mut polygon = [0u8; Entry::MOST_POLYGON];
    match polygon_call::write(Corner(0, 0), steps, &mut polygon) {
        Ok(n) => spell_bytes(out, at, &polygon[..n]),
        Err(_) => at,
    }
}

// Writes the facts of an accepted walk, and the polygon of its surviving steps.
fn enter_accepted(f: Facts, steps: &[u8], out: &mut [u8], at: usize) -> usize
    requires below { Below 4 steps.now × (length steps.now ≤ most_digits) }
    requires most_entry_in_bounds { at + most_entry ≤ length out.old }
    ensures { Wrote (entry_by (Ok f) steps.now) at out.old result out.new }
{
    let next = spell_cells(out, at, 0, 0, f);
    enter_polygon(steps, out, next)
}

// Writes a refusal: its number and place, and no facts.
fn enter_refused(r: Refusal, out: &mut [u8], at: usize) -> usize
    requires { at + most_entry ≤ length out.old }
    ensures { Wrote (entry_by (Err r) []) at out.old result out.new }
{
    let number = answer::refusal_number(r);
    let place = answer::refusal_place(r);
    spell_refusal(out, at, number, place)
}

// Writes what is said of the line s from the place at on, without its line feed. Answers the place after it.
fn enter_line(s: &[u8], table: &mut [u32], marks: &mut [u32], out: &mut [u8], at: usize) -> usize
    requires clear { Clear table.old × (length marks.old ≡ marks_words) }
    requires most_entry_in_bounds { at + most_entry ≤ length out.old }
    ensures wrote { Wrote (entry_of s.now) at out.old result out.new }
    ensures clear_2 { Clear table.new }
{
    let mut chain = [0u8; Frame::MOST_DIGITS];
    match walk_line(s, table, marks, &mut chain) {
        Ok(f) => enter_accepted(f, &chain[..f.steps], out, at),
        Err(r) => enter_refused(r, out, at),
    }
}

// The same, with its line feed.
pub fn enter(s: &[u8], table: &mut [u32], marks: &mut [u32], out: &mut [u8], at: usize) -> usize
    requires clear { Clear table.old × (length marks.old ≡ marks_words) }
    requires most_entry_in_bounds { at + most_entry ≤ length out.old }
    ensures wrote { Wrote (entered s.now) at out.old result out.new }
    ensures clear_2 { Clear table.new }
{
    let end = enter_line(s, table, marks, out, at);
    out[end] = 10;
    end + 1
}
