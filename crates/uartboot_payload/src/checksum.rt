// The payload's CRC. Where the reply has room for both of its bytes, one computation serves both.
ghost use Rattle.std.specs.Prelude.{◌≤◌, ◌<◌, length};
ghost use Rattle.uartboot_flow.specs.State.{state};
ghost use Rattle.uartboot_flow.specs.Gives.{SentFrom};

use machine::step::{Moved, to};
use machine::word::send_word;
use numbers::high_byte;
use opcodes::Opcode;
use uartboot_flow::checksum::crc_of;
use uartboot_flow::step::{CommandStep, Step};

// Sends the low byte of the payload's CRC as reply byte j, and its high byte after that where there is room.
pub fn send_crc(
    opcode: Opcode,
    size: u32,
    reason: u32,
    work: &[u8],
    reply: &mut [u8],
    j: usize,
) -> Moved<Step>
    requires { (size ≤ length work.now) × (j < length reply.old) }
    ensures { SentFrom work.now (state (Step.Command opcode size CommandStep.SendCrcLow) reason) (state result.step result.reason) j reply.old result.count reply.new }
{
    let crc = crc_of(size, work);
    send_word(
        crc,
        Step::Command(opcode, size, CommandStep::SendCrcHigh),
        Step::Command(opcode, size, CommandStep::TakeGo), // both bytes have gone
        reason,
        reply,
        j,
    )
}

// Sends the high byte of the payload's CRC as reply byte j.
pub fn send_crc_high(
    opcode: Opcode,
    size: u32,
    reason: u32,
    work: &[u8],
    reply: &mut [u8],
    j: usize,
) -> Moved<Step>
    requires { (size ≤ length work.now) × (j < length reply.old) }
    ensures { SentFrom work.now (state (Step.Command opcode size CommandStep.SendCrcHigh) reason) (state result.step result.reason) j reply.old result.count reply.new }
{
    reply[j] = high_byte(crc_of(size, work) as u32);
    to(Step::Command(opcode, size, CommandStep::TakeGo), reason).by_one()
}
