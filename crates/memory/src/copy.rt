// Bytes copied as far as they are there and have places.
ghost use Rattle.std.specs.Prelude.{◌≤◌, length};
ghost use Rattle.memory.specs.Copy.{Copied};

use crate::store::lay;

// Copies the bytes of a source from byte i on to the places of a memory from `place` up to `end`, straight into a part of it. It gives
// how many.
pub fn copy_up_to(source: &[u8], i: usize, memory: &mut [u8], place: usize, end: usize) -> usize
    requires { (i ≤ length source.now) × (place ≤ end) × (end ≤ length memory.old) }
    ensures { Copied source.now i memory.old place end memory.new result }
{
    let count = (end - place).min(source.len() - i);
    lay(&mut memory[place..], &source[i..i + count]);
    count
}
