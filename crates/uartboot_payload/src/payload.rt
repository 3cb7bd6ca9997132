// The payload: its bytes go straight into the work buffer, and after the last one the command is checked.
ghost use Rattle.std.specs.Prelude.{◌≡◌, ◌<◌, length};
ghost use Rattle.command.specs.Payload.{Carried};
ghost use Rattle.memory.specs.Memories.{memories};
ghost use Rattle.machine.specs.Steps.{Taken};
ghost use Rattle.uartboot_flow.specs.Device.{device};
ghost use Rattle.uartboot_flow.specs.Flow as flow;
ghost use Rattle.uartboot_flow.specs.State.{state};
ghost use Rattle.uartboot_flow.specs.Gives.{state_of};

use command::check::{Sizes, check};
use command::payload::command_of;
use machine::step::{Moved, Progress, to};
use memory::copy::copy_up_to;
use opcodes::Opcode;
use uartboot_flow::step::{CommandStep, Step};

// The step once `count` of the payload's bytes are in.
fn arrived(
    opcode: Opcode,
    size: u32,
    count: u32,
    reason: u32,
    ram: &[u8],
    flash: &[u8],
    work: &[u8],
) -> Progress<Step>
    requires { Carried opcode size (length work.now) }
    ensures { state_of result (memories ram.now flash.now work.now) ≡ flow.arrived reason (memories ram.now flash.now work.now) opcode size count }
{
    if count < size {
        return to(
            Step::Command(opcode, size, CommandStep::TakePayload(count)),
            reason,
        );
    }
    match check(command_of(opcode, size, work), Sizes::of(ram, flash, work)) {
        Ok(()) => to(
            Step::Command(opcode, size, CommandStep::SendPayloadAck),
            reason,
        ),
        Err(fault) => to(Step::Refusal, u32::from(fault)),
    }
}

// Takes as many payload bytes as are wanted and there, from input byte i on.
pub fn take_payload(
    opcode: Opcode,
    size: u32,
    place: u32,
    reason: u32,
    input: &[u8],
    i: usize,
    ram: &[u8],
    flash: &[u8],
    work: &mut [u8],
) -> Moved<Step>
    requires carried { Carried opcode size (length work.old) }
    requires place_lt_size { (place < size) × (i < length input.now) }
    ensures { Taken device input.now i (state (Step.Command opcode size (CommandStep.TakePayload place)) reason (memories ram.now flash.now work.old)) result.count (state result.step result.reason (memories ram.now flash.now work.new)) }
{
    let count = copy_up_to(input, i, work, place as usize, size as usize);
    let after = arrived(
        opcode,
        size,
        place + (count as u32),
        reason,
        ram,
        flash,
        work,
    );
    let step = after.step;
    Moved {
        step,
        reason: after.reason,
        count,
    }
}
