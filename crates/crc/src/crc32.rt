// CRC-32: the register of 32 bits goes low bit first, and is inverted at the end.
ghost use Rattle.std.specs.Prelude.{refl};
ghost use Rattle.crc.specs.Rule.{rule32};

use crate::Register;

// What the register is XORed with at the end.
const FINAL: u32 = 0xFFFF_FFFF;

impl Register for u32 {
    ghost rule = { rule32 };

    ghost number = { λ register. register };

    ghost START = { 0xFFFF_FFFF };

    const START: u32 = 0xFFFF_FFFF;

    #[tactic(auto, unfolding(crate::specs::Register::placed))]
    fn with_byte(self, byte: u8) -> u32 {
        self ^ byte as u32
    }

    #[tactic(auto, unfolding(crate::specs::Register::after_bit, crate::specs::Register::leaving, crate::specs::Register::moved))]
    fn after_bit(self) -> u32 {
        if self % 2 == 0 {
            self >> 1
        } else {
            (self >> 1) ^ 0xEDB8_8320
        }
    }

    fn finished(self) -> u32 {
        self ^ FINAL
    }

    ghost starts = { refl };
}
