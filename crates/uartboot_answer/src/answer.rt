// The answer's bytes, from the work buffer.
ghost use Rattle.std.specs.Prelude.{◌≡◌, ◌≤◌, ◌<◌, length};
ghost use Rattle.uartboot_flow.specs.Flow as flow;
ghost use Rattle.uartboot_flow.specs.State.{state};
ghost use Rattle.uartboot_flow.specs.Gives.{SentFrom};

use machine::step::Moved;
use memory::copy::copy_up_to;
use opcodes::Opcode;
use uartboot_flow::step::{AnswerStep, Step};

// The step once `count` of the answer's bytes are sent.
fn showed(opcode: Opcode, size: u32, count: u32) -> Step
    ensures { result ≡ flow.showed opcode size count }
{
    if count < size {
        Step::Answer(opcode, size, AnswerStep::SendAnswer(count))
    } else {
        Step::Answer(opcode, size, AnswerStep::TakeCrcLow)
    }
}

// Sends as many answer bytes as are left and have room, from reply byte j on.
pub fn send_answer(
    opcode: Opcode,
    size: u32,
    place: u32,
    reason: u32,
    work: &[u8],
    reply: &mut [u8],
    j: usize,
) -> Moved<Step>
    requires { (place < size) × (size ≤ length work.now) × (j < length reply.old) }
    ensures { SentFrom work.now (state (Step.Answer opcode size (AnswerStep.SendAnswer place)) reason) (state result.step result.reason) j reply.old result.count reply.new }
{
    let end = size as usize;
    let room = reply.len();
    let count = copy_up_to(&work[..end], place as usize, reply, j, room);
    Moved {
        step: showed(opcode, size, place + (count as u32)),
        reason,
        count,
    }
}
