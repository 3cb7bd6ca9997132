// The functions of a receiver for C: a fresh record, and a call.
#![tactic(auto)]

ghost use Rattle.std.specs.Prelude.{◌≡◌};
ghost use Rattle.machine.specs.Session.{result_of};
ghost use Rattle.machine.specs.Words.{record_of, words_of};
ghost use Rattle.rom_flow.specs.Fresh.{fresh_record};
ghost use Rattle.rom.specs.Session.{rom};
ghost use Rattle.called.specs.Called.{handed, handed_of};

use called::{Called, hand_back};
use machine::{Record, Report};
use rom_flow::kind::Receiver;

// A fresh record of a receiver: kind 0 is P, 1 is E; `und_rom_call` refuses any other.
#[unsafe(no_mangle)]
pub extern "C" fn und_rom_fresh(kind: u32, words: &mut [u32; 8])
    ensures { words.new ≡ words_of (fresh_record kind) }
{
    *words = Receiver::fresh(kind).into();
}

// A call to a receiver.
#[unsafe(no_mangle)]
pub extern "C" fn und_rom_call(
    words: &mut [u32; 8],
    input: &[u8],
    reply: &mut [u8],
    ram: &mut [u8],
) -> Called
    ensures { handed result words.new reply.new ram.new ≡ handed_of (result_of rom (record_of words.old) ram.old input.now reply.old) }
{
    let session = Record::from(*words);
    let outcome = rom::session::call(session, input, reply, ram);
    let report = Report::of(session, outcome.map_err(u32::from));
    hand_back(report, words)
}
