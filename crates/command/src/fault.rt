// What a command's checks can find wrong, with its number.
ghost use Rattle.std.specs.Prelude.{◌≡◌};
ghost use Rattle.command.specs.Check.{fault_number};

// The reason where the verify byte is neither 0 nor 1.
pub const BAD_VERIFY: u32 = 14;

// The reason where a count or size is 0.
pub const EMPTY_RANGE: u32 = 15;

// The reason where the first byte of a range is outside its memory.
pub const OUTSIDE_MEMORY: u32 = 16;

// The reason where a range begins in its memory and runs past the end.
pub const PAST_END: u32 = 21;

// The reason where the answer is longer than the work buffer.
pub const LONG_ANSWER: u32 = 17;

#[derive(Clone, Copy, Debug, PartialEq, Eq)]
pub enum Fault {
    BadVerify,
    EmptyRange,
    OutsideMemory,
    PastEnd,
    LongAnswer,
}

impl From<Fault> for u32 {
    ghost from_gives = { λ f n. n ≡ fault_number f };

    fn from(fault: Fault) -> u32 {
        match fault {
            Fault::BadVerify => BAD_VERIFY,
            Fault::EmptyRange => EMPTY_RANGE,
            Fault::OutsideMemory => OUTSIDE_MEMORY,
            Fault::PastEnd => PAST_END,
            Fault::LongAnswer => LONG_ANSWER,
        }
    }
}
