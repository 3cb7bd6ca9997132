// The functions of the host's end of uartboot for C: a fresh record, and a call.
#![tactic(auto)]

ghost use Rattle.std.specs.Prelude.{◌≡◌};
ghost use Rattle.machine.specs.Session.{result_of};
ghost use Rattle.machine.specs.Words.{record_of, words_of};
ghost use Rattle.host_command.specs.Exchange.{lent};
ghost use Rattle.host_flow.specs.Fresh.{fresh_record};
ghost use Rattle.host.specs.Session.{host_session};
ghost use Rattle.called.specs.Called.{handed, handed_of};

use called::{Called, hand_back};
use host_flow::kind::Host;
use machine::{Record, Report};

// A fresh record of a host.
#[unsafe(no_mangle)]
pub extern "C" fn und_host_fresh(words: &mut [u32; 8])
    ensures { words.new ≡ words_of fresh_record }
{
    *words = Host::fresh().into();
}

// A call to a host.
#[unsafe(no_mangle)]
pub extern "C" fn und_host_call(
    words: &mut [u32; 8],
    opcode: u32,
    payload: &[u8],
    input: &[u8],
    output: &mut [u8],
    answer: &mut [u8],
) -> Called
    ensures { handed result words.new output.new (lent opcode payload.now answer.new) ≡ handed_of (result_of host_session (record_of words.old) (lent opcode payload.now answer.old) input.now output.old) }
{
    let session = Record::from(*words);
    let outcome = host::session::call(session, opcode, payload, input, output, answer);
    let report = Report::of(session, outcome.map_err(u32::from));
    hand_back(report, words)
}
