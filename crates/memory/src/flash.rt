// Flash: a store clears bits only, and an erasure sets whole sectors to 0xFF.
ghost use Rattle.std.specs.Prelude.{◌≡◌, ◌≤◌, length};
ghost use Rattle.memory.specs.Flash.{burnt, blank, erased, Area};

use wire::length::SECTOR;

// What an erased byte holds.
pub const ERASED: u8 = 0xFF;

// Stores bytes at the front of a part of flash that has room for them: each leaves old AND new. The part's other bytes stay.
pub fn burn(part: &mut [u8], bytes: &[u8])
    requires { length bytes.now ≤ length part.old }
    ensures { part.new ≡ burnt bytes.now part.old }
{
    for (i, &byte) in bytes.iter().enumerate() {
        part[i] &= byte;
    }
}

// Erases a part of flash.
pub fn wipe(part: &mut [u8])
    ensures { part.new ≡ blank (length part.old) }
{
    part.fill(ERASED);
}

// Erases every sector that touches the `size` bytes from `offset` on.
pub fn erase(flash: &mut [u8], offset: usize, size: usize)
    requires { Area offset size (length flash.old) }
    ensures { flash.new ≡ erased offset size flash.old }
{
    let first = offset / SECTOR * SECTOR;
    let past = ((offset + size - 1) / SECTOR + 1) * SECTOR;
    wipe(&mut flash[first..past]);
}
