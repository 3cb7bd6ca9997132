// The steps of the flow: groups of steps, and the steps of each group.

use opcodes::Opcode;
use wire::unit::RamAddress;

// The steps that take a header. What it has brought: the opcode's number, and the low byte of the length.
#[derive(Clone, Copy)]
pub enum HeaderStep {
    TakeSoh,
    TakeOpcode,
    TakeLow(u32),
    TakeHigh(u32, u32),
}

// The steps of a command whose header was accepted, up to the host's 06 for the payload's CRC. TakePayload has the place of the next
// byte.
#[derive(Clone, Copy)]
pub enum CommandStep {
    SendAck,
    TakePayload(u32),
    SendPayloadAck,
    SendCrcLow,
    SendCrcHigh,
    TakeGo,
}

// The steps of an answer. SendAnswer has the place of the next byte, TakeCrcHigh the low byte of the host's CRC.
#[derive(Clone, Copy)]
pub enum AnswerStep {
    SendLengthLow,
    SendLengthHigh,
    TakeGo,
    SendAnswer(u32),
    TakeCrcLow,
    TakeCrcHigh(u32),
    SendAck,
}

// A step of the flow: the greeting's next byte, a header, a command with its opcode and payload length, an answer with its opcode
// and length, the 15 of a refusal, or code running at an address.
#[derive(Clone, Copy)]
pub enum Step {
    Greeting(u32),
    Header(HeaderStep),
    Command(Opcode, u32, CommandStep),
    Answer(Opcode, u32, AnswerStep),
    Refusal,
    Running(RamAddress),
}
