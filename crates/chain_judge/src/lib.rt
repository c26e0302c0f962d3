// Judges a start and a chain of steps, as every call on a chain does first.
#![tactic(auto)]

ghost use Rattle.std.specs.Prelude.{◌≡◌};
ghost use Rattle.steps.specs.Chain.{chain_judged, as_walk_judged};

use answer::{Limits, Refusal, start_fits};
use grid::Corner;
use order::highest;

// The first fault of a chain: a byte above 3, or a step that is one too many.
fn fault(chain: &[u8]) -> Result<(), Refusal>
    ensures { result ≡ chain_judged 0 chain.now }
{
    for (i, &d) in chain.iter().enumerate() {
        if d > 3 {
            return Err(Refusal::BadDigit(i));
        }
        if i == Limits::MOST_STEPS {
            return Err(Refusal::TooLong(i));
        }
    }
    Ok(())
}

// The same, but bytes are looked at one by one only if something is wrong.
fn judge_steps(chain: &[u8]) -> Result<(), Refusal>
    ensures { result ≡ chain_judged 0 chain.now }
{
    if chain.len() > Limits::MOST_STEPS || highest(chain) > 3 {
        return fault(chain);
    }
    Ok(())
}

// What is wrong with a start and a chain as a walk: 1, then 10, then 4 or 6 at the first faulty place.
pub fn judge(start: Corner, chain: &[u8]) -> Result<(), Refusal>
    ensures { result ≡ as_walk_judged start chain.now }
{
    if chain.len() > Limits::MOST_INPUT {
        return Err(Refusal::TooMany);
    }
    if !start_fits(start) {
        return Err(Refusal::StartRange);
    }
    judge_steps(chain)
}
