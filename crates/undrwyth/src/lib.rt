// The C boundary: include/undrwyth.h says what each function does. A slice is a pointer and then a length.
#![tactic(auto)]

ghost use Rattle.grid.specs.Grid.{corner};
ghost use Rattle.turns.specs.Way.{convert_of};
ghost use Rattle.overlay.specs.Call.{of_parts};
ghost use Rattle.line_reply.specs.Reply.{LineIs};
ghost use Rattle.line_convert.specs.Convert.{ConvertedIs};
ghost use Rattle.steps.specs.Turns.{turns_of, steps_of};
ghost use Rattle.undrwyth.specs.Boundary.{WalkGives, PairGives, HullGives, OutlineGives, TurnsGive, PolygonGives, ChainGives, ConvexGives, RowsGives, OverlayGives, OrthogonalGives};

use grid::Corner;
use turns::Way;
use undrwyth_words::{
    counted_words, given_words, orthogonal_words, overlaid_words, pair_answer_words, turns_words,
    walk_words,
};

// Follows the operations from a start.
#[unsafe(no_mangle)]
pub extern "C" fn undrwyth_walk(
    start_x: i32,
    start_y: i32,
    ops: &[u8],
    table: &mut [u32],
    marks: &mut [u32],
    chain: &mut [u8],
    answer: &mut [u32; 11],
) -> u32
    ensures { WalkGives (corner start_x start_y) ops.now table.old marks.old
        chain.old result table.new marks.new chain.new answer.new }
{
    let a = walk_call::follow(Corner(start_x, start_y), ops, table, marks, chain);
    let words = walk_words(a);
    *answer = words;
    words[0]
}

// Follows the operations of two parties from their starts, in one table.
#[unsafe(no_mangle)]
pub extern "C" fn undrwyth_walk_two(
    start0_x: i32,
    start0_y: i32,
    start1_x: i32,
    start1_y: i32,
    ops: &[u8],
    table: &mut [u32],
    marks: &mut [u32],
    chain0: &mut [u8],
    chain1: &mut [u8],
    answer: &mut [u32; 19],
) -> u32
    ensures { PairGives (corner start0_x start0_y) (corner start1_x start1_y) ops.now
        record {
          table = table.entry.now;
          marks = marks.old;
          first = chain0.old;
          second = chain1.old;
        } result record {
          table = table.exit.now;
          marks = marks.new;
          first = chain0.new;
          second = chain1.new;
        } answer.new }
{
    let start = Corner(start0_x, start0_y);
    let start2 = Corner(start1_x, start1_y);
    let a = pair_call::follow(start, start2, ops, table, marks, chain0, chain1);
    let words = pair_answer_words(a);
    *answer = words;
    words[0]
}

// Lists the hull of the walk from a start.
#[unsafe(no_mangle)]
pub extern "C" fn undrwyth_hull(
    start_x: i32,
    start_y: i32,
    chain: &[u8],
    out: &mut [i32],
    answer: &mut [u32; 3],
) -> u32
    ensures { HullGives (corner start_x start_y) chain.now out.old result out.new
        answer.new }
{
    let c = hull_call::list(Corner(start_x, start_y), chain, out);
    let words = counted_words(c);
    *answer = words;
    words[0]
}

// Writes the outer outline.
#[unsafe(no_mangle)]
pub extern "C" fn undrwyth_outline(
    start_x: i32,
    start_y: i32,
    chain: &[u8],
    out: &mut [u8],
    answer: &mut [u32; 3],
) -> u32
    ensures { OutlineGives (corner start_x start_y) chain.now out.old result out.new
        answer.new }
{
    let c = outline_call::write(Corner(start_x, start_y), chain, out);
    let words = counted_words(c);
    *answer = words;
    words[0]
}

// Writes a room as a polygon.
#[unsafe(no_mangle)]
pub extern "C" fn undrwyth_polygon_of_room(
    start_x: i32,
    start_y: i32,
    chain: &[u8],
    out: &mut [u8],
    answer: &mut [u32; 3],
) -> u32
    ensures { PolygonGives (corner start_x start_y) chain.now out.old result out.new
        answer.new }
{
    let c = polygon_call::write(Corner(start_x, start_y), chain, out);
    let words = counted_words(c);
    *answer = words;
    words[0]
}

// Lists the panels of a room by rows.
#[unsafe(no_mangle)]
pub extern "C" fn undrwyth_rows(
    start_x: i32,
    start_y: i32,
    chain: &[u8],
    out: &mut [i32],
    answer: &mut [u32; 3],
) -> u32
    ensures { RowsGives (corner start_x start_y) chain.now out.old result out.new
        answer.new }
{
    let c = row_call::list(Corner(start_x, start_y), chain, out);
    let words = counted_words(c);
    *answer = words;
    words[0]
}

// Lists the panels of two rooms by parts: in the first only, in the second only, in both.
#[unsafe(no_mangle)]
pub extern "C" fn undrwyth_overlay(
    start1_x: i32,
    start1_y: i32,
    chain1: &[u8],
    start2_x: i32,
    start2_y: i32,
    chain2: &[u8],
    first: &mut [i32],
    second: &mut [i32],
    both: &mut [i32],
    answer: &mut [u32; 8],
) -> u32
    ensures { OverlayGives (corner start1_x start1_y) chain1.now (corner start2_x start2_y)
        chain2.now (of_parts first.old second.old both.old) result
        (of_parts first.new second.new both.new) answer.new }
{
    let one = Corner(start1_x, start1_y);
    let other = Corner(start2_x, start2_y);
    let o = overlay_call::list(one, chain1, other, chain2, first, second, both);
    let words = overlaid_words(o);
    *answer = words;
    words[0]
}

// Says whether a room is convex.
#[unsafe(no_mangle)]
pub extern "C" fn undrwyth_convex(
    start_x: i32,
    start_y: i32,
    chain: &[u8],
    answer: &mut [u32; 3],
) -> u32
    ensures { ConvexGives (corner start_x start_y) chain.now result answer.new }
{
    let c = convex_call::tell(Corner(start_x, start_y), chain);
    let words = counted_words(c);
    *answer = words;
    words[0]
}

// Outlines the orthogonal hull of a room's blocks.
#[unsafe(no_mangle)]
pub extern "C" fn undrwyth_orthogonal_hull(
    start_x: i32,
    start_y: i32,
    chain: &[u8],
    grid: u32,
    out: &mut [u8],
    answer: &mut [u32; 6],
) -> u32
    ensures { OrthogonalGives (corner start_x start_y) chain.now grid out.old result out.new
        answer.new }
{
    let o = orthogonal_call::outline(Corner(start_x, start_y), chain, grid, out);
    let words = orthogonal_words(o);
    *answer = words;
    words[0]
}

// Reads a polygon as a start and a chain.
#[unsafe(no_mangle)]
pub extern "C" fn undrwyth_chain_of_polygon(
    file: &[u8],
    chain: &mut [u8],
    answer: &mut [u32; 5],
) -> u32
    ensures { ChainGives file.now chain.old result chain.new answer.new }
{
    let g = polygon_ring_call::read(file, chain);
    let words = given_words(g);
    *answer = words;
    words[0]
}

// Converts the digits one way or the other.
fn give_converted(way: Way, digits: &[u8], out: &mut [u8], answer: &mut [u32; 2]) -> u32
    ensures { TurnsGive (convert_of way) digits.now out.old result out.new
        answer.new }
{
    let j = turns::convert(way, digits, out);
    let words = turns_words(j);
    *answer = words;
    words[0]
}

// Turns steps into turns.
#[unsafe(no_mangle)]
pub extern "C" fn undrwyth_turns_of_steps(
    steps: &[u8],
    out: &mut [u8],
    answer: &mut [u32; 2],
) -> u32
    ensures { TurnsGive turns_of steps.now out.old result out.new answer.new }
{
    give_converted(Way::ToTurns, steps, out, answer)
}

// Turns turns into steps.
#[unsafe(no_mangle)]
pub extern "C" fn undrwyth_steps_of_turns(
    turns: &[u8],
    out: &mut [u8],
    answer: &mut [u32; 2],
) -> u32
    ensures { TurnsGive steps_of turns.now out.old result out.new answer.new }
{
    give_converted(Way::ToSteps, turns, out, answer)
}

// Answers one line, which has no line feed; the answer has none either.
#[unsafe(no_mangle)]
pub extern "C" fn undrwyth_line(line: &[u8], out: &mut [u8]) -> usize
    ensures { LineIs line.now out.old result out.new }
{
    line_reply::reply(line, out)
}

// Converts one line, which has no line feed; what is written has none either.
#[unsafe(no_mangle)]
pub extern "C" fn undrwyth_convert_line(line: &[u8], out: &mut [u8]) -> usize
    ensures { ConvertedIs line.now out.old result out.new }
{
    line_convert::convert(line, out)
}
