// The header: its bytes, and the tests after its last one.
#![tactic(auto)]

ghost use Rattle.std.specs.Prelude.{◌≡◌, true, length};
ghost use Rattle.wire.specs.Length.{is_work_length};
ghost use Rattle.opcodes.specs.Opcode.{opcode_of};
ghost use Rattle.uartboot_flow.specs.Flow.{headed, took};
ghost use Rattle.uartboot_flow.specs.State.{state};
ghost use Rattle.uartboot_flow.specs.Gives.{Gives};

use machine::step::{Progress, to};
use numbers::pair;
use opcodes::{BAD_LENGTH, UNKNOWN_OPCODE, opcode_of};
use uartboot_flow::reason::LONG_PAYLOAD;
use uartboot_flow::step::{CommandStep, HeaderStep, Step};
use wire::line::SOH;

// Tests a header: its opcode, its length, and the length against the work buffer.
fn head(opcode: u32, size: usize, reason: u32, work: &[u8]) -> Progress<Step>
    requires { is_work_length (length work.now) ≡ true }
    ensures { Gives work.now result (λ m. headed reason m (opcode_of opcode) size) }
{
    let Some(known) = opcode_of(opcode) else {
        return to(Step::Refusal, UNKNOWN_OPCODE);
    };
    if !known.has_length(size) {
        return to(Step::Refusal, BAD_LENGTH);
    }
    if work.len() < size {
        return to(Step::Refusal, LONG_PAYLOAD);
    }
    to(
        Step::Command(known, size as u32, CommandStep::SendAck),
        reason,
    )
}

// What a taken byte does to a header.
pub fn took_header(step: HeaderStep, reason: u32, byte: u8, work: &[u8]) -> Progress<Step>
    requires { is_work_length (length work.now) ≡ true }
    ensures { Gives work.now result (λ m. took (state (Step.Header step) reason m) byte) }
{
    match step {
        HeaderStep::TakeSoh => {
            if byte == SOH {
                to(Step::Header(HeaderStep::TakeOpcode), reason)
            } else {
                to(Step::Header(HeaderStep::TakeSoh), reason)
            }
        }
        HeaderStep::TakeOpcode => to(Step::Header(HeaderStep::TakeLow(byte as u32)), reason),
        HeaderStep::TakeLow(opcode) => {
            to(
                Step::Header(HeaderStep::TakeHigh(opcode, byte as u32)),
                reason,
            )
        }
        HeaderStep::TakeHigh(opcode, low) => head(opcode, pair(low, byte), reason, work),
    }
}
