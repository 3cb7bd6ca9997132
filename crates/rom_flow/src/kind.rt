// The kinds of receiver, and the session's own type: its kinds' numbers, and a fresh record.
ghost use Rattle.std.specs.Prelude.{◌≡◌};
ghost use Rattle.rom_flow.specs.Fresh.{kind_number, kind_of, fresh_record};

use machine::{Record, start};

// P: DA14580 in its own note, DA1453x. E: DA1458x, with an extended length.
#[derive(Clone, Copy, Debug, PartialEq, Eq)]
pub enum Kind {
    P,
    E,
}

// The first length of kind E that is extended: 00 00, and two bytes with the length less this.
pub const FIRST_EXTENDED: usize = 65_536;

// A receiver's session, by the number of its kind.
#[derive(Clone, Copy)]
pub struct Receiver {
    pub kind: u32,
}

impl Receiver {
    // The kind numbers of P and E.
    pub const P: u32 = 0;

    pub const E: u32 = 1;

    // A fresh record; calls refuse it where the kind is unknown.
    pub fn fresh(kind: u32) -> Record
        ensures { result ≡ fresh_record kind }
    {
        start(kind)
    }
}

// A number that no kind has.
#[derive(Clone, Copy, Debug, PartialEq, Eq)]
pub struct UnknownKind(pub u32);

impl From<Kind> for u32 {
    ghost from_gives = { λ kind number. number ≡ kind_number kind };

    fn from(kind: Kind) -> u32 {
        match kind {
            Kind::P => Receiver::P,
            Kind::E => Receiver::E,
        }
    }
}

impl TryFrom<u32> for Kind {
    type Error = UnknownKind;

    ghost try_from_gives = { λ number found. found ≡ kind_of number };

    fn try_from(number: u32) -> Result<Kind, UnknownKind> {
        match number {
            Receiver::P => Ok(Kind::P),
            Receiver::E => Ok(Kind::E),
            _ => Err(UnknownKind(number)),
        }
    }
}
