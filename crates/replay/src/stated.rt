// The memories that a recording is replayed with, and room for the recording.
ghost use Rattle.std.specs.Prelude.{◌≡◌, length};
ghost use Rattle.visit.specs.Replay.{replay_of};
ghost use Rattle.replay.specs.Stated.{blank_ram, blank_flash, blank_work, stated};

use visit::{Replayed, replay};

// The longest recording that is replayed.
pub const LONGEST: usize = 1_048_576;

// Room for it and one byte more.
pub fn file() -> [u8; 1_048_577]
    ensures { 1048577 ≡ length result }
{
    [0; 1_048_577]
}

fn ram() -> [u8; 131_072]
    ensures { result ≡ blank_ram }
{
    [0; 131_072]
}

fn flash() -> [u8; 1_048_576]
    ensures { result ≡ blank_flash }
{
    [0xFF; 1_048_576]
}

fn work() -> [u8; 65_535]
    ensures { result ≡ blank_work }
{
    [0; 65_535]
}

pub fn replay_stated(recording: &[u8]) -> Replayed
    ensures { result ≡ (replay_of recording.now stated).answer }
{
    let mut ram = ram();
    let mut flash = flash();
    let mut work = work();
    replay(recording, &mut ram, &mut flash, &mut work)
}
