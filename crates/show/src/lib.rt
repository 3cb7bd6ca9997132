// Bytes on standard output, as they are and in hexadecimal, and the bytes of standard input, for the programs that run figures.
#![tactic(auto)]

ghost use Rattle.std.specs.Prelude.{◌≤◌, length, IfOk};

use std::io;
use std::io::Read;

pub fn text(rt: &impl Print, bytes: &[u8]) -> io::Result<()> {
    rt.write_all(bytes)
}

// Bytes in hexadecimal, a blank before each.
pub fn bytes(rt: &impl Print, bytes: &[u8]) -> io::Result<()> {
    for byte in bytes {
        print!(rt; " {byte:02x}")?;
    }
    Ok(())
}

// Reads until the room is full or the input ends, and says how many bytes it put at the room's start.
pub fn read_full(rt: &impl Input, room: &mut [u8]) -> io::Result<usize>
    ensures { IfOk result (λ count. count ≤ length room.new) }
{
    let mut input = rt.reader();
    let mut count = 0;
    while count < room.len() {
        let more = input.read(&mut room[count..])?;
        if more == 0 {
            break;
        }
        count += more;
    }
    Ok(count)
}
