// A recorded visit replayed: the host's bytes go to a fresh uartboot session, and its replies are held to the device's bytes.
#![tactic(auto)]

ghost use Rattle.std.specs.Prelude.{◌≡◌};
ghost use Rattle.memory.specs.Memories.{memories};
ghost use Rattle.visit.specs.Played.{Answers};
ghost use Rattle.visit.specs.Replay.{refused_answer, replayed, replay_of};

use crate::held::Held;
use crate::play::play;
use recording::form::check;
use uartboot::session::check_lengths;

pub mod held;
pub mod play;

// What a replay gives: equal 1 and place 0; equal 0 and the place of the first difference; or a refusal's number and zeros.
// Numbers and not a Result, since C reads it from `und_replay`.
#[repr(C)]
#[derive(Clone, Copy)]
pub struct Replayed {
    pub number: u32,
    pub equal: u32,
    pub place: usize,
}

fn refused(number: u32) -> Replayed
    ensures { result ≡ refused_answer number }
{
    Replayed {
        number,
        equal: 0,
        place: 0,
    }
}

// The answer, once no more replies come.
fn answer<'a>(held: Result<Held<'a>, usize>) -> Replayed
    ensures { Answers held.entry result }
{
    let place = match held {
        Ok(held) if held.run.bytes.is_empty() => {
            return Replayed {
                number: 0,
                equal: 1,
                place: 0,
            };
        }
        Ok(held) => held.place,
        Err(place) => place,
    };
    Replayed {
        number: 0,
        equal: 0,
        place,
    }
}

// Replays a recording on the lent memories. Nothing is played before the whole file is judged.
pub fn replay(recording: &[u8], ram: &mut [u8], flash: &mut [u8], work: &mut [u8]) -> Replayed
    ensures { replayed result (memories ram.new flash.new work.new) ≡ replay_of recording.now (memories ram.old flash.old work.old) }
{
    if let Err(why) = check_lengths(ram.len(), flash.len(), work.len()) {
        return refused(u32::from(why));
    }
    if let Err(fault) = check(recording) {
        return refused(u32::from(fault));
    }
    answer(play(recording, ram, flash, work))
}
