// The session's own type: its kind number, a fresh record, and the greeting.
ghost use Rattle.std.specs.Prelude.{◌≡◌};
ghost use Rattle.uartboot_flow.specs.Fresh.{fresh_record};
ghost use Rattle.uartboot_flow.specs.Flow.{greeting};

use machine::{Record, start};

// A uartboot session: what belongs to the session itself.
#[derive(Clone, Copy)]
pub struct Uartboot {
    pub kind: u32,
}

impl Uartboot {
    pub const KIND: u32 = 2;

    pub const GREETING: [u8; 4] = [0x02, 0x01, 0x00, 0x03];

    pub const GREETING_LENGTH: u32 = 4;

    // The place of its last byte.
    pub const LAST_GREETING: u32 = 3;

    pub fn fresh() -> Record
        ensures { result ≡ fresh_record }
    {
        start(Uartboot::KIND)
    }
}

// The greeting's byte at a place; past its end, the last one.
pub fn greeting_byte(place: u32) -> u8
    ensures { result ≡ greeting place }
{
    Uartboot::GREETING[place.min(Uartboot::LAST_GREETING) as usize]
}
