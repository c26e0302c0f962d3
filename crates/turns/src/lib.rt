// Steps to turns and back. Each call takes digits and a buffer of the same length, and leaves the buffer as it was if it refuses.
#![tactic(auto)]

ghost use Rattle.std.specs.Prelude.{◌≡◌, ◌<◌, length};
ghost use Rattle.lists.specs.Lists.{Below};
ghost use Rattle.steps.specs.Turns.{turns_of, steps_of, digits_judged, turns_judged, ConvertedBy};
ghost use Rattle.turns.specs.Way.{digit_by, step_by, convert_of};

use answer::{Limits, Refusal};
use order::highest;

// Which way digits are converted.
#[derive(Clone, Copy)]
pub enum Way {
    ToTurns,
    ToSteps,
}

// The step before a digit.
#[derive(Clone, Copy)]
struct Heading(u8);

impl Heading {
    // What is written for the digit x after this step: the turn to the step x, or the step that the turn x leads to.
    fn digit(self, way: Way, x: u8) -> u8
        requires { (self.0 < 4) × (x < 4) }
        ensures { (result ≡ digit_by way self.0 x) × (result < 4) }
    {
        match way {
            Way::ToTurns => x.wrapping_sub(self.0) % 4,
            Way::ToSteps => self.0.wrapping_add(x) % 4,
        }
    }
}

// The step at the digit x for which y is written.
fn step_at(way: Way, x: u8, y: u8) -> u8
    ensures { result ≡ step_by way x y }
{
    match way {
        Way::ToTurns => x,
        Way::ToSteps => y,
    }
}

// Refuses the first digit above 3, by a test of each.
fn fault(digits: &[u8]) -> Result<(), Refusal>
    ensures { result ≡ digits_judged 0 digits.now }
{
    for (i, &d) in digits.iter().enumerate() {
        if d > 3 {
            return Err(Refusal::BadDigit(i));
        }
    }
    Ok(())
}

// The same, but bytes are looked at one by one only if something is wrong.
fn judge_digits(digits: &[u8]) -> Result<(), Refusal>
    ensures { result ≡ digits_judged 0 digits.now }
{
    if highest(digits) > 3 {
        return fault(digits);
    }
    Ok(())
}

// Refuses too many digits, then a buffer of another length, then the first digit above 3.
fn judge(digits: &[u8], size: usize) -> Result<(), Refusal>
    ensures { result ≡ turns_judged digits.now size }
{
    if digits.len() > Limits::MOST_INPUT {
        return Err(Refusal::TooMany);
    }
    if size != digits.len() {
        return Err(Refusal::ResultRoom);
    }
    judge_digits(digits)
}

// Writes the digits, converted.
fn write(way: Way, digits: &[u8], out: &mut [u8])
    requires { Below 4 digits.now × (length out.old ≡ length digits.now) }
    ensures { out.new ≡ convert_of way digits.now }
{
    let mut last = 0u8;
    for (i, &x) in digits.iter().enumerate() {
        let y = Heading(last).digit(way, x);
        out[i] = y;
        last = step_at(way, x, y);
    }
}

// The digits converted, in a buffer of the same length. Refuses 1, 3 and 4.
pub fn convert(way: Way, digits: &[u8], out: &mut [u8]) -> Result<(), Refusal>
    ensures { ConvertedBy (convert_of way) digits.now out.old result out.new }
{
    judge(digits, out.len())?;
    write(way, digits, out);
    Ok(())
}

// The turns of the steps.
pub fn turns_of(steps: &[u8], out: &mut [u8]) -> Result<(), Refusal>
    ensures { ConvertedBy turns_of steps.now out.old result out.new }
{
    convert(Way::ToTurns, steps, out)
}

// The steps of the turns.
pub fn steps_of(turns: &[u8], out: &mut [u8]) -> Result<(), Refusal>
    ensures { ConvertedBy steps_of turns.now out.old result out.new }
{
    convert(Way::ToSteps, turns, out)
}
