// Replies held to the device's bytes, piece by piece.
ghost use Rattle.std.specs.Prelude.{◌≡◌, IfOk};
ghost use Rattle.visit.specs.Held.{is_next, IsHeld, Holds};
ghost use Rattle.recording.specs.Left.{left_in, IsRun};

use recording::run::Run;

// How far the comparison has come: the device's bytes that are next, and how many agreed.
#[derive(Clone, Copy)]
pub struct Held<'a> {
    pub run: Run<'a>,
    pub place: usize,
}

// Whether a byte is the next one of a run; where no bytes are left, none is.
#[tactic(auto, using(crate::proofs::Holding::nexts))]
fn is_next<'a>(run: Run<'a>, byte: u8) -> bool
    requires { IsRun run }
    ensures { result ≡ is_next byte (left_in run.entry) }
{
    run.bytes.first() == Some(&byte)
}

// Goes on over replies, as long as they agree; else the place of the first that does not.
pub fn hold<'a>(held: Result<Held<'a>, usize>, replies: &[u8]) -> Result<Held<'a>, usize>
    requires { IfOk held IsHeld }
    ensures { Holds held.entry replies.now result }
{
    let Held { mut run, mut place } = held?;
    for &byte in replies {
        if !is_next(run, byte) {
            return Err(place);
        }
        run = run.past(1);
        place += 1;
    }
    Ok(Held { run, place })
}
