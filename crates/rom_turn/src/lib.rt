// One turn of the receiver: takes or sends what a step asks, code in bulk.
#![tactic(auto)]

ghost use Rattle.std.specs.Prelude.{◌≡◌, ◌<◌, length};
ghost use Rattle.machine.specs.Steps.{Taken};
ghost use Rattle.rom_flow.specs.Ask.{step_of, InRam, SentSo};
ghost use Rattle.rom_flow.specs.Receiver.{receiver};
ghost use Rattle.rom_flow.specs.Sound.{Ready};
ghost use Rattle.rom_flow.specs.State.{state};

use crate::code::{take_code, took_ack, xor_of};
use crate::header::took_header;
use machine::step::{Moved, Progress, to};
use rom_flow::ask::{Sending, Taking};
use rom_flow::kind::Kind;
use rom_flow::step::Step;

pub mod code;
pub mod header;

// Takes what a step asks, from input byte i on.
pub fn take(
    taking: Taking,
    kind: Kind,
    reason: u32,
    input: &[u8],
    i: usize,
    ram: &mut [u8],
) -> Moved<Step>
    requires ready { Ready kind (step_of taking) ram.old }
    requires i_in_bounds { i < length input.now }
    ensures { Taken receiver input.now i (state kind (step_of taking) reason ram.old) result.count (state kind result.step result.reason ram.new) }
{
    match taking {
        Taking::Header(step) => {
            took_header(kind, ram.len() as u32, step, reason, input[i]).by_one()
        }
        Taking::Code(total, place) => take_code(total, place, reason, input, i, ram),
        Taking::Ack(_) => took_ack(reason, input[i]).by_one(),
    }
}

// Sends what a step asks, as reply byte j.
pub fn send(sending: Sending, reason: u32, reply: &mut [u8], j: usize, ram: &[u8]) -> Moved<Step>
    requires in_ram { InRam sending (length ram.now) }
    requires j_in_bounds { j < length reply.old }
    ensures { SentSo sending reason ram.now j reply.old result reply.new }
{
    match sending {
        Sending::Byte(byte, next) => {
            reply[j] = byte;
            to(next, reason).by_one()
        }
        Sending::Xor(total) => {
            reply[j] = xor_of(ram, total as usize);
            to(Step::TakeAck(total), reason).by_one()
        }
    }
}
