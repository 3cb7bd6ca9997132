// What single bytes of the device do: one that is awaited, its CRC, the length of its answer.
ghost use Rattle.host_flow.specs.Flow.{goes, expected, crc_came, length_began, length_came};
ghost use Rattle.host_flow.specs.Gives.{EndsIn, GivesBeside, GivesAwaiting};
ghost use Rattle.numbers.specs.Number.{paired};

use host_flow::reason::{DEVICE_CRC, DEVICE_REFUSED, OUT_OF_FLOW};
use host_flow::step::Step;
use machine::step::{Progress, to};
use numbers::{low_byte, pair};
use wire::line::NAK;

// A byte came where `wanted` is awaited.
pub fn took_awaited(wanted: u8, next: Step, reason: u32, byte: u8) -> Progress<Step>
    ensures { EndsIn result (λ c. expected reason c wanted byte next) }
{
    if byte == wanted {
        return to(next, reason);
    }
    if byte == NAK {
        return to(Step::Over, DEVICE_REFUSED);
    }
    to(Step::Over, OUT_OF_FLOW)
}

// The low byte of the device's CRC.
pub fn took_crc_low(reason: u32, byte: u8) -> Progress<Step>
    ensures { EndsIn result (λ c. goes reason c (Step.TakeCrcHigh byte)) }
{
    to(Step::TakeCrcHigh(byte as u32), reason)
}

// The high byte of the device's CRC, which is then compared with the payload's.
pub fn took_crc_high(low: u32, reason: u32, byte: u8, payload: &[u8]) -> Progress<Step>
    ensures { GivesBeside payload.now result (λ c. crc_came reason c (paired low byte)) }
{
    if pair(low, byte) == (crc::crc_of::<u16>(payload) as usize) {
        to(Step::SendGo, reason)
    } else {
        to(Step::SendNak, DEVICE_CRC)
    }
}

// The low byte of an answer's length.
pub fn took_length_low(awaited: u32, reason: u32, byte: u8) -> Progress<Step>
    ensures { GivesAwaiting awaited result (λ c. length_began reason c byte) }
{
    if byte == low_byte(awaited) {
        return to(Step::TakeLengthHigh(byte as u32), reason);
    }
    if byte == NAK {
        return to(Step::Over, DEVICE_REFUSED);
    }
    to(Step::TakeLengthHigh(byte as u32), reason)
}

// The high byte of an answer's length, which is then judged.
pub fn took_length_high(awaited: u32, low: u32, reason: u32, byte: u8) -> Progress<Step>
    ensures { GivesAwaiting awaited result (λ c. length_came reason c (paired low byte)) }
{
    let size = pair(low, byte);
    if size != (awaited as usize) {
        return to(Step::Over, OUT_OF_FLOW);
    }
    if size == 0 {
        return to(Step::Over, OUT_OF_FLOW);
    }
    to(Step::SendAnswerGo, reason)
}
