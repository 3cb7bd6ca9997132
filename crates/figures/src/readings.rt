// Numbers at the edges of the bytes 12 34 56 78 9A.
use std::io;

fn line(rt: &impl Print, width: u64, place: usize, found: Option<u32>) -> io::Result<()> {
    print!(rt; "12 34 56 78 9A, {width} bytes from {place}: ")?;
    match found {
        Some(number) => println!(rt; "{number:04x}"),
        None => println!(rt; "missing"),
    }
}

fn read(rt: &impl Print, place: usize) -> io::Result<()> {
    let bytes = b"\x12\x34\x56\x78\x9A";
    line(rt, 2, place, numbers::read_at::<2>(bytes, place))?;
    line(rt, 4, place, numbers::read_at::<4>(bytes, place))
}

pub fn run(rt: &impl Print) -> io::Result<()> {
    for place in [0, 1, 2, 3, 4, 5, usize::MAX] {
        read(rt, place)?;
    }
    Ok(())
}
