// One turn of the session: takes or sends what a step asks, in bulk where it is a payload, its CRC or an answer.
#![tactic(auto)]

ghost use Rattle.std.specs.Prelude.{◌≡◌, ◌<◌, length};
ghost use Rattle.machine.specs.Steps.{Taken};
ghost use Rattle.memory.specs.Memories.{memories};
ghost use Rattle.uartboot_flow.specs.Ask.{step_of, ReadyTo, SentSo};
ghost use Rattle.uartboot_flow.specs.Device.{device};
ghost use Rattle.uartboot_flow.specs.Sound.{Ready};
ghost use Rattle.uartboot_flow.specs.State.{state};

use machine::step::{Moved, Progress, to};
use uartboot_answer::answer::send_answer;
use uartboot_answer::host::{took_answer_go, took_crc_high, took_crc_low};
use uartboot_execution::{accept, take_go};
use uartboot_flow::ask::{Sending, Taking};
use uartboot_flow::step::Step;
use uartboot_header::took_header;
use uartboot_payload::checksum::{send_crc, send_crc_high};
use uartboot_payload::payload::take_payload;
use wire::line::ACK;

// Takes what a step asks, from input byte i on.
pub fn take(
    taking: Taking,
    reason: u32,
    input: &[u8],
    i: usize,
    ram: &mut [u8],
    flash: &mut [u8],
    work: &mut [u8],
) -> Moved<Step>
    requires ready { Ready (step_of taking) (memories ram.old flash.old work.old) }
    requires i_in_bounds { i < length input.now }
    ensures { Taken device input.now i (state (step_of taking) reason (memories ram.old flash.old work.old)) result.count (state result.step result.reason (memories ram.new flash.new work.new)) }
{
    match taking {
        Taking::Header(step) => took_header(step, reason, input[i], work).by_one(),
        Taking::Payload(opcode, size, place) => {
            take_payload(opcode, size, place, reason, input, i, ram, flash, work)
        }
        Taking::Go(opcode, size) => {
            take_go(opcode, size, reason, input[i], ram, flash, work).by_one()
        }
        Taking::AnswerGo(opcode, size) => took_answer_go(opcode, size, reason, input[i]).by_one(),
        Taking::HostCrcLow(opcode, size) => took_crc_low(opcode, size, reason, input[i]).by_one(),
        Taking::HostCrcHigh(opcode, size, low) => {
            took_crc_high(opcode, size, low, reason, input[i], work).by_one()
        }
    }
}

// Sends what a step asks, from reply byte j on.
pub fn send(
    sending: Sending,
    reason: u32,
    reply: &mut [u8],
    j: usize,
    ram: &mut [u8],
    flash: &mut [u8],
    work: &mut [u8],
) -> Moved<Step>
    requires ready_to { ReadyTo sending (memories ram.old flash.old work.old) }
    requires j_in_bounds { j < length reply.old }
    ensures { SentSo sending reason (memories ram.old flash.old work.old) j reply.old result (memories ram.new flash.new work.new) reply.new }
{
    match sending {
        Sending::Byte(byte, next) => {
            reply[j] = byte;
            to(next, reason).by_one()
        }
        Sending::Acceptance(opcode, size) => {
            reply[j] = ACK;
            accept(opcode, size, reason, ram, flash, work).by_one()
        }
        Sending::Crc(opcode, size) => send_crc(opcode, size, reason, work, reply, j),
        Sending::CrcHigh(opcode, size) => send_crc_high(opcode, size, reason, work, reply, j),
        Sending::Answer(opcode, size, place) => {
            send_answer(opcode, size, place, reason, work, reply, j)
        }
    }
}
