// The function that C calls to replay a recorded visit.
#![tactic(auto)]

ghost use Rattle.std.specs.Prelude.{◌≡◌};
ghost use Rattle.memory.specs.Memories.{memories};
ghost use Rattle.visit.specs.Replay.{replayed, replay_of};

use visit::Replayed;

// Replays a recording on the lent memories.
#[unsafe(no_mangle)]
pub extern "C" fn und_replay(
    recording: &[u8],
    ram: &mut [u8],
    flash: &mut [u8],
    work: &mut [u8],
) -> Replayed
    ensures { replayed result (memories ram.new flash.new work.new) ≡ replay_of recording.now (memories ram.old flash.old work.old) }
{
    visit::replay(recording, ram, flash, work)
}
