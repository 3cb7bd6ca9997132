// The units of a place on the device: RAM addresses and flash offsets.
ghost use Rattle.std.specs.Prelude.{◌≡◌};
ghost use Rattle.wire.specs.Unit.{ram_place, is_in_ram, flash_place};

use crate::range::place_in;

// The address of RAM's first byte.
pub const RAM_BASE: u32 = 0x07FC_0000;

// Two structs, each with its `place`: a trait with the first address as a constant would be longer than these two calls.

// An address in RAM.
#[derive(Clone, Copy)]
pub struct RamAddress(pub u32);

// An offset in flash, from 0.
#[derive(Clone, Copy)]
pub struct FlashOffset(pub u32);

impl RamAddress {
    // Where `count` bytes from this address on lie in a RAM of `ram` bytes.
    pub fn place(self, count: usize, ram: usize) -> Option<usize>
        ensures { result ≡ ram_place self count ram }
    {
        place_in(self.0 as usize, count, RAM_BASE as usize, ram)
    }

    // Whether the byte at this address lies in a RAM of `ram` bytes.
    #[tactic(auto, unfolding(crate::specs::Range::place_in))]
    pub fn is_in(self, ram: usize) -> bool
        ensures { result ≡ is_in_ram self ram }
    {
        self.place(1, ram).is_some()
    }
}

impl FlashOffset {
    // Where `count` bytes from this offset on lie in a flash of `flash` bytes.
    pub fn place(self, count: usize, flash: usize) -> Option<usize>
        ensures { result ≡ flash_place self count flash }
    {
        place_in(self.0 as usize, count, 0, flash)
    }
}
