// A recording's bytes played into a fresh session, one entry of the host after the other. Where its stream is cut never matters, which is
// what demand 3 says, so what the calls reply and leave is what the definition gives for the joined bytes.
ghost use Rattle.memory.specs.Memories.{memories};
ghost use Rattle.std.specs.Prelude.{IfOk};
ghost use Rattle.recording.specs.Form.{head_length};
ghost use Rattle.visit.specs.Held.{HeldIn};
ghost use Rattle.visit.specs.Played.{Playable, Played};

use crate::held::{Held, hold};
use machine::stop::Standing;
use recording::form::{DEVICE, HEAD, HOST};
use recording::run::Run;
use uartboot::session::call;
use uartboot_flow::kind::Uartboot;

// How many replies a call has room for.
const ROOM: usize = 1_024;

// Plays a recording to its end, or until code runs.
pub fn play<'a>(
    file: &'a [u8],
    ram: &mut [u8],
    flash: &mut [u8],
    work: &mut [u8],
) -> Result<Held<'a>, usize>
    requires { Playable file.now (memories ram.old flash.old work.old) }
    ensures played { Played file.now (memories ram.old flash.old work.old) result (memories ram.new flash.new work.new) }
    ensures lies { IfOk result (HeldIn file.entry head_length) }
{
    let entries = &file[HEAD..];
    let mut room = [0u8; ROOM];
    let mut session = Uartboot::fresh();
    let mut host = Run::first(HOST, entries);
    let mut held = Ok(Held {
        run: Run::first(DEVICE, entries),
        place: 0,
    });
    loop {
        // The lengths and each record are accepted.
        let Ok(done) = call(session, host.bytes, &mut room, ram, flash, work) else {
            unreachable!()
        };
        session = done.session;
        held = hold(held, &room[..done.sent]);
        host = host.past(done.taken);
        match done.standing {
            Standing::Ended => return held,
            Standing::NeedsByte if host.bytes.is_empty() => return held,
            Standing::NeedsByte => {}
            Standing::NeedsRoom => {}
        }
    }
}
