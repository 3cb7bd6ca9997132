// The header: 01, and a length that is judged by the kind and the RAM.
ghost use Rattle.rom_flow.specs.Gives.{Gives, GivesEach};
ghost use Rattle.rom_flow.specs.Flow.{zero_length, judged, headed, took};
ghost use Rattle.rom_flow.specs.State.{state};

use machine::step::{Progress, to};
use numbers::pair;
use rom_flow::kind::{FIRST_EXTENDED, Kind};
use rom_flow::step::{HeaderStep, Step};
use wire::line::SOH;

// The reason where a header does not begin with 01.
pub const NOT_SOH: u32 = 31;

// The reason where kind P's length is 0.
pub const EMPTY_CODE: u32 = 32;

// The reason where the length is above the RAM's.
pub const LONG_CODE: u32 = 33;

// A length that is not zero, with a RAM of `size` bytes.
fn judge(size: u32, reason: u32, total: usize) -> Progress<Step>
    ensures { GivesEach size result (λ kind ram. judged kind reason ram total) }
{
    if total <= (size as usize) {
        to(Step::SendAck(total as u32), reason)
    } else {
        to(Step::SendNak, LONG_CODE)
    }
}

// Both length bytes were zero.
fn zero_length(kind: Kind, size: u32, reason: u32) -> Progress<Step>
    ensures { Gives size kind result (λ ram. zero_length kind reason ram) }
{
    match kind {
        Kind::P => to(Step::SendNak, EMPTY_CODE),
        Kind::E => to(Step::Header(HeaderStep::TakeExtendedLow), reason),
    }
}

// A length of two bytes.
fn head(kind: Kind, size: u32, reason: u32, total: usize) -> Progress<Step>
    ensures { Gives size kind result (λ ram. headed kind reason ram total) }
{
    if total == 0 {
        zero_length(kind, size, reason)
    } else {
        judge(size, reason, total)
    }
}

// What a taken byte does to a header.
pub fn took_header(kind: Kind, size: u32, step: HeaderStep, reason: u32, byte: u8) -> Progress<Step>
    ensures { Gives size kind result (λ ram. took (state kind (Step.Header step) reason ram) byte) }
{
    match step {
        HeaderStep::TakeSoh => {
            if byte == SOH {
                to(Step::Header(HeaderStep::TakeLow), reason)
            } else {
                to(Step::SendNak, NOT_SOH)
            }
        }
        HeaderStep::TakeLow => to(Step::Header(HeaderStep::TakeHigh(byte as u32)), reason),
        HeaderStep::TakeHigh(low) => head(kind, size, reason, pair(low, byte)),
        HeaderStep::TakeExtendedLow => {
            to(
                Step::Header(HeaderStep::TakeExtendedHigh(byte as u32)),
                reason,
            )
        }
        HeaderStep::TakeExtendedHigh(low) => judge(size, reason, FIRST_EXTENDED + pair(low, byte)),
    }
}
