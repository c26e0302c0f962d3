// Judges a start and a chain for the calls on a room.
#![tactic(auto)]

ghost use Rattle.std.specs.Prelude.{◌≡◌, not};
ghost use Rattle.answer.specs.declared.Refusal.TheVariants.{NotRoom};
ghost use Rattle.answer.specs.Refusal.{when};
ghost use Rattle.room.specs.Room.{as_room_judged};

use answer::Refusal;
use grid::Corner;
use room_map::is_room;

// Refusal 12 unless it is a room.
fn told(room: bool) -> Result<(), Refusal>
    ensures { result ≡ when (not room) NotRoom }
{
    if room {
        return Ok(());
    }
    Err(Refusal::NotRoom)
}

// What is wrong with a start and a chain as a room: the refusals of a walk, then 12.
pub fn judge(start: Corner, chain: &[u8]) -> Result<(), Refusal>
    ensures { result ≡ as_room_judged start chain.now }
{
    chain_judge::judge(start, chain)?;
    told(is_room(chain))
}
