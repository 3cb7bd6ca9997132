// One turn of the host: takes or sends what a step asks, in bulk where it is a payload or an answer.
#![tactic(auto)]

ghost use Rattle.std.specs.Prelude.{◌≡◌, ◌<◌, length};
ghost use Rattle.host_flow.specs.Gives.{Looked};
ghost use Rattle.host_flow.specs.Ask.{FitsTaking, FitsSending, TakenSo, SentSo};

use crate::answer::{send_crc, send_crc_high, take_answer};
use crate::byte::{took_awaited, took_crc_high, took_crc_low, took_length_high, took_length_low};
use crate::payload::send_payload;
use host_command::Exchange;
use host_flow::ask::{Sending, Taking};
use host_flow::step::Step;
use machine::step::{Moved, Progress, to};
use wire::line::STX;

pub mod answer;
pub mod byte;
pub mod payload;

// Takes what a step asks, from input byte i on.
pub fn take(
    taking: Taking,
    x: Exchange,
    reason: u32,
    payload: &[u8],
    input: &[u8],
    i: usize,
    answer: &mut [u8],
) -> Moved<Step>
    requires fits_taking { FitsTaking taking x (length answer.old) }
    requires i_in_bounds { i < length input.now }
    ensures { TakenSo taking x reason payload.now input.now i answer.old result answer.new }
{
    let follows = x.follows;
    let awaited = follows.awaited();
    match taking {
        Taking::Awaited(byte, next) => took_awaited(byte, next, reason, input[i]).by_one(),
        Taking::Any(next) => to(next, reason).by_one(),
        Taking::CrcLow => took_crc_low(reason, input[i]).by_one(),
        Taking::CrcHigh(low) => took_crc_high(low, reason, input[i], payload).by_one(),
        Taking::LengthLow => took_length_low(awaited, reason, input[i]).by_one(),
        Taking::LengthHigh(low) => took_length_high(awaited, low, reason, input[i]).by_one(),
        Taking::Answer(place) => take_answer(awaited, place, reason, input, i, answer),
    }
}

// Sends what a step asks, from output byte j on.
pub fn send(
    sending: Sending,
    x: Exchange,
    reason: u32,
    payload: &[u8],
    output: &mut [u8],
    j: usize,
    answer: &[u8],
) -> Moved<Step>
    requires fits_sending { FitsSending sending x (length payload.now) (length answer.now) }
    requires j_in_bounds { j < length output.old }
    ensures { SentSo sending x reason payload.now answer.now j output.old result output.new }
{
    let follows = x.follows;
    let awaited = follows.awaited();
    match sending {
        Sending::Byte(byte, next) => {
            output[j] = byte;
            to(next, reason).by_one()
        }
        Sending::Payload(place) => send_payload(x.size, place, reason, payload, output, j),
        Sending::Crc => send_crc(awaited, reason, answer, output, j),
        Sending::CrcHigh => send_crc_high(awaited, reason, answer, output, j),
    }
}

// Looks at the byte that comes where the next greeting is awaited. Its 02 stays untaken.
pub fn look(reason: u32, byte: u8) -> Moved<Step>
    ensures { Looked reason byte result }
{
    if byte == STX {
        return Moved {
            step: Step::Over,
            reason,
            count: 0,
        };
    }
    took_awaited(STX, Step::Over, reason, byte).by_one()
}
