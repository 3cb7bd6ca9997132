// What a step asks: bytes, or room for what it sends, with the step that follows where no memory says which.
ghost use Rattle.std.specs.Prelude.{◌≡◌};
ghost use Rattle.host_flow.specs.Ask.{Asked};
ghost use Rattle.host_flow.specs.Flow.{header_byte, behind, headed};

use crate::step::Step;
use host_command::{Exchange, Follows};
use numbers::{high_byte, low_byte};
use wire::line::{ACK, NAK, SOH, STX};

// The last byte of a greeting.
const ETX: u8 = 0x03;

// How many bytes a greeting and a header have.
pub const GREETING_BYTES: u32 = 4;

pub const HEADER_BYTES: u32 = 4;

// A byte that has to be this one, and the step that follows it; any byte, and the step that follows; the low byte of the device's CRC,
// and its high byte with the low one; the low byte of an answer's length, and its high byte with the low one; answer bytes, with the
// next place.
#[derive(Clone, Copy)]
pub enum Taking {
    Awaited(u8, Step),
    Any(Step),
    CrcLow,
    CrcHigh(u32),
    LengthLow,
    LengthHigh(u32),
    Answer(u32),
}

// A byte, and the step that follows it; payload bytes, with the next place; an answer's CRC, and its high byte alone.
#[derive(Clone, Copy)]
pub enum Sending {
    Byte(u8, Step),
    Payload(u32),
    Crc,
    CrcHigh,
}

// Bytes to take, something to send, a look at the next byte, or nothing since the command is over.
// Not the machine's Ask, which has no look: a look may take nothing, and the command is over after it.
#[derive(Clone, Copy)]
pub enum Ask {
    Take(Taking),
    Send(Sending),
    Look,
    Halt,
}

fn ask_greeting(x: Exchange, place: u32) -> Ask
    ensures { Asked result x (Step.TakeGreeting place) }
{
    if place == 0 {
        return Ask::Take(Taking::Awaited(STX, Step::TakeGreeting(1)));
    }
    if place < GREETING_BYTES - 1 {
        return Ask::Take(Taking::Any(Step::TakeGreeting(place + 1)));
    }
    Ask::Take(Taking::Awaited(ETX, Step::SendHeader(0)))
}

// The header's byte at a place.
fn header_byte(x: Exchange, place: u32) -> u8
    ensures { result ≡ header_byte x place }
{
    match place {
        0 => SOH,
        1 => x.opcode,
        2 => low_byte(x.size),
        _ => high_byte(x.size),
    }
}

fn ask_header(x: Exchange, place: u32) -> Ask
    ensures { Asked result x (Step.SendHeader place) }
{
    let byte = header_byte(x, place);
    if place < HEADER_BYTES - 1 {
        Ask::Send(Sending::Byte(byte, Step::SendHeader(place + 1)))
    } else {
        Ask::Send(Sending::Byte(byte, Step::TakeHeaderAck))
    }
}

// The step after the execution.
fn behind_of(x: Exchange) -> Step
    ensures { result ≡ behind x.follows }
{
    let follows = x.follows;
    match follows {
        Follows::Answers(_) => Step::TakeLengthLow,
        Follows::Runs => Step::Over,
        Follows::Greets => Step::Look,
    }
}

// The step after the header's 06.
fn after_header(x: Exchange) -> Step
    ensures { result ≡ headed x }
{
    if x.size == 0 {
        behind_of(x)
    } else {
        Step::SendPayload(0)
    }
}

fn await_byte(byte: u8, next: Step) -> Ask
    ensures { result ≡ Ask.Take (Taking.Awaited byte next) }
{
    Ask::Take(Taking::Awaited(byte, next))
}

fn say(byte: u8, next: Step) -> Ask
    ensures { result ≡ Ask.Send (Sending.Byte byte next) }
{
    Ask::Send(Sending::Byte(byte, next))
}

pub fn ask_of(x: Exchange, step: Step) -> Ask
    ensures { Asked result x step }
{
    match step {
        Step::TakeGreeting(place) => ask_greeting(x, place),
        Step::SendHeader(place) => ask_header(x, place),
        Step::TakeHeaderAck => await_byte(ACK, after_header(x)),
        Step::SendPayload(place) => Ask::Send(Sending::Payload(place)),
        Step::TakePayloadAck => await_byte(ACK, Step::TakeCrcLow),
        Step::TakeCrcLow => Ask::Take(Taking::CrcLow),
        Step::TakeCrcHigh(low) => Ask::Take(Taking::CrcHigh(low)),
        Step::SendGo => say(ACK, behind_of(x)),
        Step::SendNak => say(NAK, Step::Over),
        Step::TakeLengthLow => Ask::Take(Taking::LengthLow),
        Step::TakeLengthHigh(low) => Ask::Take(Taking::LengthHigh(low)),
        Step::SendAnswerGo => say(ACK, Step::TakeAnswer(0)),
        Step::TakeAnswer(place) => Ask::Take(Taking::Answer(place)),
        Step::SendCrcLow => Ask::Send(Sending::Crc),
        Step::SendCrcHigh => Ask::Send(Sending::CrcHigh),
        Step::TakeLastAck => await_byte(ACK, Step::Over),
        Step::Look => Ask::Look,
        Step::Over => Ask::Halt,
    }
}
