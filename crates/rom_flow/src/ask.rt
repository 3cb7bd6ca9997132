// What a step asks: bytes, or room for what it sends, with the step that follows.
ghost use Rattle.rom_flow.specs.Ask.{Asked};

use crate::step::{HeaderStep, Step};
use machine::ask::Ask;
use wire::line::{ACK, NAK, STX};

// A byte of a header; code bytes, with the code's length and the next place; the byte after the XOR.
#[derive(Clone, Copy)]
pub enum Taking {
    Header(HeaderStep),
    Code(u32, u32),
    Ack(u32),
}

// A byte, and the step that follows it; the XOR of n code bytes.
#[derive(Clone, Copy)]
pub enum Sending {
    Byte(u8, Step),
    Xor(u32),
}

pub fn ask_of(step: Step) -> Ask<Taking, Sending>
    ensures { Asked result step }
{
    match step {
        Step::SendStx => { Ask::Send(Sending::Byte(STX, Step::Header(HeaderStep::TakeSoh))) }
        Step::Header(inner) => Ask::Take(Taking::Header(inner)),
        Step::SendAck(total) => Ask::Send(Sending::Byte(ACK, Step::TakeCode(total, 0))),
        Step::TakeCode(total, place) => Ask::Take(Taking::Code(total, place)),
        Step::SendXor(total) => Ask::Send(Sending::Xor(total)),
        Step::TakeAck(total) => Ask::Take(Taking::Ack(total)),
        Step::SendNak => Ask::Send(Sending::Byte(NAK, Step::SendStx)),
        Step::Running(_) => Ask::Halt,
    }
}
