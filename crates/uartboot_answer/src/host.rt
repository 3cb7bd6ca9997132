// What the host says to an answer: its 06, and its CRC.
ghost use Rattle.std.specs.Prelude.{◌≤◌, length};
ghost use Rattle.uartboot_flow.specs.Flow.{took};
ghost use Rattle.uartboot_flow.specs.State.{state};
ghost use Rattle.uartboot_flow.specs.Gives.{Gives, EndsIn};

use machine::step::{Progress, to};
use numbers::pair;
use opcodes::Opcode;
use uartboot_flow::checksum::crc_of;
use uartboot_flow::reason::{CRC_DIFFERS, NOT_ACKED};
use uartboot_flow::step::{AnswerStep, Step};
use wire::line::ACK;

// The byte after an answer's length: only 06 lets the answer follow.
pub fn took_answer_go(opcode: Opcode, size: u32, reason: u32, byte: u8) -> Progress<Step>
    ensures { EndsIn result (λ m. took (state (Step.Answer opcode size AnswerStep.TakeGo) reason m) byte) }
{
    if byte == ACK {
        to(
            Step::Answer(opcode, size, AnswerStep::SendAnswer(0)),
            reason,
        )
    } else {
        to(Step::Greeting(0), NOT_ACKED)
    }
}

// The low byte of the host's CRC.
pub fn took_crc_low(opcode: Opcode, size: u32, reason: u32, byte: u8) -> Progress<Step>
    ensures { EndsIn result (λ m. took (state (Step.Answer opcode size AnswerStep.TakeCrcLow) reason m) byte) }
{
    to(
        Step::Answer(opcode, size, AnswerStep::TakeCrcHigh(byte as u32)),
        reason,
    )
}

// The high byte of the host's CRC, which is then compared with the answer's.
pub fn took_crc_high(
    opcode: Opcode,
    size: u32,
    low: u32,
    reason: u32,
    byte: u8,
    work: &[u8],
) -> Progress<Step>
    requires { size ≤ length work.now }
    ensures { Gives work.now result (λ m. took (state (Step.Answer opcode size (AnswerStep.TakeCrcHigh low)) reason m) byte) }
{
    if pair(low, byte) == (crc_of(size, work) as usize) {
        to(Step::Answer(opcode, size, AnswerStep::SendAck), reason)
    } else {
        to(Step::Refusal, CRC_DIFFERS)
    }
}
