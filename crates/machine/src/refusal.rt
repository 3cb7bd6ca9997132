// Why a session's call is refused.
ghost use Rattle.std.specs.Prelude.{◌≡◌};
ghost use Rattle.machine.specs.Told.{refusal_number};

use wire::length::{BAD_FLASH, BAD_RAM, BAD_WORK};

// The number given for an unsound record.
pub const BAD_RECORD: u32 = 4;

// A memory of a length that it may not have, or an unsound record.
#[derive(Clone, Copy, Debug, PartialEq, Eq)]
pub enum Refusal {
    WorkLength,
    RamLength,
    FlashLength,
    Record,
}

impl From<Refusal> for u32 {
    ghost from_gives = { λ refusal number. number ≡ refusal_number refusal };

    fn from(refusal: Refusal) -> u32 {
        match refusal {
            Refusal::WorkLength => BAD_WORK,
            Refusal::RamLength => BAD_RAM,
            Refusal::FlashLength => BAD_FLASH,
            Refusal::Record => BAD_RECORD,
        }
    }
}
