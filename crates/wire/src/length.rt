// The lengths that the memories may have.
ghost use Rattle.std.specs.Prelude.{◌≡◌};
ghost use Rattle.wire.specs.Length.{is_ram_length, is_flash_length, is_work_length};

const SMALLEST_RAM: usize = 1;

const LARGEST_RAM: usize = 131_072;

// The number given for RAM of a length that it may not have.
pub const BAD_RAM: u32 = 2;

// How many bytes a sector of flash has.
pub const SECTOR: usize = 4_096;

const LARGEST_FLASH: usize = 4_194_304;

// The number given for flash of a length that it may not have.
pub const BAD_FLASH: u32 = 3;

const SMALLEST_WORK: usize = 64;

const LARGEST_WORK: usize = 65_535;

// The number given for a work buffer of a length that it may not have.
pub const BAD_WORK: u32 = 1;

// Whether RAM may have this length.
#[tactic(auto, unfolding(crate::specs::Length::is_between))]
pub fn is_ram_length(size: usize) -> bool
    ensures { result ≡ is_ram_length size }
{
    (SMALLEST_RAM..=LARGEST_RAM).contains(&size)
}

// Whether flash may have this length.
#[tactic(auto, unfolding(crate::specs::Length::is_flash_length))]
pub fn is_flash_length(size: usize) -> bool
    ensures { result ≡ is_flash_length size }
{
    size != 0 && size % SECTOR == 0 && size <= LARGEST_FLASH
}

// Whether a work buffer may have this length.
#[tactic(auto, unfolding(crate::specs::Length::is_between))]
pub fn is_work_length(size: usize) -> bool
    ensures { result ≡ is_work_length size }
{
    (SMALLEST_WORK..=LARGEST_WORK).contains(&size)
}
