// A command executed: on the host's byte, or at once where it has no payload; and where the flow goes then.
#![tactic(auto)]

ghost use Rattle.std.specs.Prelude.{◌≡◌, length};
ghost use Rattle.command.specs.Payload.{Carried};
ghost use Rattle.memory.specs.Memories.{memories, Fitting};
ghost use Rattle.uartboot_flow.specs.Flow.{ends, executes, after_ack, took};
ghost use Rattle.uartboot_flow.specs.State.{state};
ghost use Rattle.uartboot_flow.specs.Gives.{state_of, EndsIn};

use command_execution::{Ending, execute};
use machine::step::{Progress, to};
use opcodes::Opcode;
use uartboot_flow::reason::NOT_ACKED;
use uartboot_flow::step::{AnswerStep, CommandStep, Step};
use wire::line::ACK;

// Where the flow goes after an execution.
fn after_execution(opcode: Opcode, reason: u32, ending: Ending) -> Progress<Step>
    ensures { EndsIn result (ends reason opcode ending) }
{
    match ending {
        Ending::Silent => to(Step::Greeting(0), reason),
        Ending::Answers(count) => {
            to(
                Step::Answer(opcode, count, AnswerStep::SendLengthLow),
                reason,
            )
        }
        Ending::Runs(address) => to(Step::Running(address), reason),
        Ending::Failed(why) => to(Step::Refusal, why),
    }
}

// Executes a command.
fn go(
    opcode: Opcode,
    size: u32,
    reason: u32,
    ram: &mut [u8],
    flash: &mut [u8],
    work: &mut [u8],
) -> Progress<Step>
    requires carried { Carried opcode size (length work.old) }
    requires fitting { Fitting (length ram.old) (length flash.old) (length work.old) }
    ensures { state_of result (memories ram.new flash.new work.new) ≡ executes reason (memories ram.old flash.old work.old) opcode size }
{
    let ending = execute(opcode, size, ram, flash, work);
    after_execution(opcode, reason, ending)
}

// Takes the host's byte after the payload's CRC: only 06 lets the command be executed.
pub fn take_go(
    opcode: Opcode,
    size: u32,
    reason: u32,
    byte: u8,
    ram: &mut [u8],
    flash: &mut [u8],
    work: &mut [u8],
) -> Progress<Step>
    requires carried { Carried opcode size (length work.old) }
    requires fitting { Fitting (length ram.old) (length flash.old) (length work.old) }
    ensures { state_of result (memories ram.new flash.new work.new) ≡ took (state (Step.Command opcode size CommandStep.TakeGo) reason (memories ram.old flash.old work.old)) byte }
{
    if byte == ACK {
        go(opcode, size, reason, ram, flash, work)
    } else {
        to(Step::Greeting(0), NOT_ACKED)
    }
}

// What follows the header's 06: a command without payload is executed.
pub fn accept(
    opcode: Opcode,
    size: u32,
    reason: u32,
    ram: &mut [u8],
    flash: &mut [u8],
    work: &mut [u8],
) -> Progress<Step>
    requires carried { Carried opcode size (length work.old) }
    requires fitting { Fitting (length ram.old) (length flash.old) (length work.old) }
    ensures { state_of result (memories ram.new flash.new work.new) ≡ after_ack reason (memories ram.old flash.old work.old) opcode size }
{
    if size == 0 {
        go(opcode, size, reason, ram, flash, work)
    } else {
        to(
            Step::Command(opcode, size, CommandStep::TakePayload(0)),
            reason,
        )
    }
}
