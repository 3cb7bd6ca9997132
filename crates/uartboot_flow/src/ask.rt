// What a step asks: bytes, or room for what it sends, with the step that follows where no memory says which.
ghost use Rattle.std.specs.Prelude.{◌≡◌};
ghost use Rattle.uartboot_flow.specs.Ask.{Asked};

use crate::kind::{Uartboot, greeting_byte};
use crate::step::{AnswerStep, CommandStep, HeaderStep, Step};
use machine::ask::Ask;
use numbers::{high_byte, low_byte};
use opcodes::Opcode;
use wire::line::{ACK, NAK};

// A byte of a header; bytes of a payload, with its opcode and length and the next place; the byte on which the command is executed or
// not; the byte after an answer's length; the low byte of the host's CRC, and the high one with the low one.
#[derive(Clone, Copy)]
pub enum Taking {
    Header(HeaderStep),
    Payload(Opcode, u32, u32),
    Go(Opcode, u32),
    AnswerGo(Opcode, u32),
    HostCrcLow(Opcode, u32),
    HostCrcHigh(Opcode, u32, u32),
}

// A byte, and the step that follows it; the 06 for a header, after which a command without payload is executed; a payload's CRC, with
// its opcode and length, and its high byte alone; bytes of an answer, with its opcode and length and the next place.
#[derive(Clone, Copy)]
pub enum Sending {
    Byte(u8, Step),
    Acceptance(Opcode, u32),
    Crc(Opcode, u32),
    CrcHigh(Opcode, u32),
    Answer(Opcode, u32, u32),
}

fn ask_greeting(place: u32) -> Ask<Taking, Sending>
    ensures { Asked result (Step.Greeting place) }
{
    let byte = greeting_byte(place);
    if place < Uartboot::LAST_GREETING {
        Ask::Send(Sending::Byte(byte, Step::Greeting(place + 1)))
    } else {
        Ask::Send(Sending::Byte(byte, Step::Header(HeaderStep::TakeSoh)))
    }
}

fn ask_command(opcode: Opcode, size: u32, step: CommandStep) -> Ask<Taking, Sending>
    ensures { Asked result (Step.Command opcode size step) }
{
    match step {
        CommandStep::SendAck => Ask::Send(Sending::Acceptance(opcode, size)),
        CommandStep::TakePayload(place) => Ask::Take(Taking::Payload(opcode, size, place)),
        CommandStep::SendPayloadAck => {
            Ask::Send(Sending::Byte(ACK, Step::Command(opcode, size, CommandStep::SendCrcLow)))
        }
        CommandStep::SendCrcLow => Ask::Send(Sending::Crc(opcode, size)),
        CommandStep::SendCrcHigh => Ask::Send(Sending::CrcHigh(opcode, size)),
        CommandStep::TakeGo => Ask::Take(Taking::Go(opcode, size)),
    }
}

// A byte of an answer's length, and the step of the answer that follows.
fn say(byte: u8, opcode: Opcode, size: u32, next: AnswerStep) -> Ask<Taking, Sending>
    ensures { result ≡ Ask.Send (Sending.Byte byte (Step.Answer opcode size next)) }
{
    Ask::Send(Sending::Byte(byte, Step::Answer(opcode, size, next)))
}

fn ask_answer(opcode: Opcode, size: u32, step: AnswerStep) -> Ask<Taking, Sending>
    ensures { Asked result (Step.Answer opcode size step) }
{
    match step {
        AnswerStep::SendLengthLow => {
            say(low_byte(size), opcode, size, AnswerStep::SendLengthHigh)
        }
        AnswerStep::SendLengthHigh => { say(high_byte(size), opcode, size, AnswerStep::TakeGo) }
        AnswerStep::TakeGo => Ask::Take(Taking::AnswerGo(opcode, size)),
        AnswerStep::SendAnswer(place) => Ask::Send(Sending::Answer(opcode, size, place)),
        AnswerStep::TakeCrcLow => Ask::Take(Taking::HostCrcLow(opcode, size)),
        AnswerStep::TakeCrcHigh(low) => Ask::Take(Taking::HostCrcHigh(opcode, size, low)),
        AnswerStep::SendAck => Ask::Send(Sending::Byte(ACK, Step::Greeting(0))),
    }
}

pub fn ask_of(step: Step) -> Ask<Taking, Sending>
    ensures { Asked result step }
{
    match step {
        Step::Greeting(place) => ask_greeting(place),
        Step::Header(inner) => Ask::Take(Taking::Header(inner)),
        Step::Command(opcode, size, inner) => ask_command(opcode, size, inner),
        Step::Answer(opcode, size, inner) => ask_answer(opcode, size, inner),
        Step::Refusal => Ask::Send(Sending::Byte(NAK, Step::Greeting(0))),
        Step::Running(_) => Ask::Halt,
    }
}
