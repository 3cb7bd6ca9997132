// The functions of a uartboot session for C: a fresh record, and a call.
#![tactic(auto)]

ghost use Rattle.std.specs.Prelude.{◌≡◌};
ghost use Rattle.machine.specs.Session.{result_of};
ghost use Rattle.machine.specs.Words.{record_of, words_of};
ghost use Rattle.memory.specs.Memories.{memories};
ghost use Rattle.uartboot_flow.specs.Fresh.{fresh_record};
ghost use Rattle.uartboot.specs.Session.{uartboot};
ghost use Rattle.called.specs.Called.{handed, handed_of};

use called::{Called, hand_back};
use machine::{Record, Report};
use uartboot_flow::kind::Uartboot;

// A fresh record of a uartboot session.
#[unsafe(no_mangle)]
pub extern "C" fn und_uartboot_fresh(words: &mut [u32; 8])
    ensures { words.new ≡ words_of fresh_record }
{
    *words = Uartboot::fresh().into();
}

// A call to a uartboot session.
#[unsafe(no_mangle)]
pub extern "C" fn und_uartboot_call(
    words: &mut [u32; 8],
    input: &[u8],
    reply: &mut [u8],
    ram: &mut [u8],
    flash: &mut [u8],
    work: &mut [u8],
) -> Called
    ensures { handed result words.new reply.new (memories ram.new flash.new work.new) ≡ handed_of (result_of uartboot (record_of words.old) (memories ram.old flash.old work.old) input.now reply.old) }
{
    let session = Record::from(*words);
    let outcome = uartboot::session::call(session, input, reply, ram, flash, work);
    let report = Report::of(session, outcome.map_err(u32::from));
    hand_back(report, words)
}
