// CRC-16: the register of 16 bits goes high bit first.
ghost use Rattle.std.specs.Prelude.{refl};
ghost use Rattle.crc.specs.Rule.{rule16};

use crate::Register;

impl Register for u16 {
    ghost rule = { rule16 };

    ghost number = { λ register. register };

    ghost START = { 0xFFFF };

    const START: u16 = 0xFFFF;

    #[tactic(auto, unfolding(crate::specs::Register::placed))]
    fn with_byte(self, byte: u8) -> u16 {
        self ^ ((byte as u16) << 8)
    }

    #[tactic(auto, unfolding(crate::specs::Register::after_bit, crate::specs::Register::leaving, crate::specs::Register::moved))]
    fn after_bit(self) -> u16 {
        if self < 0x8000 {
            self << 1
        } else {
            (self << 1) ^ 0x1021
        }
    }

    // There is no final change.
    fn finished(self) -> u16 {
        self
    }

    ghost starts = { refl };
}
