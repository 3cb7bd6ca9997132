// Why no slot starts, and the number given for that.
ghost use Rattle.std.specs.Prelude.{◌≡◌};
ghost use Rattle.slot.specs.Slot.{refusal_number};

use wire::length::BAD_FLASH;

// The number given where the product header does not lie wholly in the flash.
pub const NO_HEADER: u32 = 51;

// The number given where its mark is wrong.
pub const WRONG_MARK: u32 = 52;

// The number given where neither image is valid.
pub const NO_IMAGE: u32 = 53;

#[derive(Clone, Copy, Debug, PartialEq, Eq)]
pub enum Refusal {
    // The flash has a length that it may not have.
    BadFlash,
    NoHeader,
    WrongMark,
    NoImage,
}

// A refusal's number.
impl From<Refusal> for u32 {
    ghost from_gives = { λ refusal number. number ≡ refusal_number refusal };

    fn from(refusal: Refusal) -> u32 {
        match refusal {
            Refusal::BadFlash => BAD_FLASH,
            Refusal::NoHeader => NO_HEADER,
            Refusal::WrongMark => WRONG_MARK,
            Refusal::NoImage => NO_IMAGE,
        }
    }
}
