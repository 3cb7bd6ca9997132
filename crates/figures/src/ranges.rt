// Ranges at the edges of RAM and of flash.
use std::io;
use wire::unit::{FlashOffset, RamAddress};

fn line(
    rt: &impl Print,
    memory: &str,
    size: usize,
    count: usize,
    start: u32,
    place: Option<usize>,
) -> io::Result<()> {
    print!(rt; "{memory} of {size}, {count} from {start:08x}: ")?;
    match place {
        Some(at) => println!(rt; "from byte {at}"),
        None => println!(rt; "outside"),
    }
}

fn ram(rt: &impl Print, address: u32, count: usize, size: usize) -> io::Result<()> {
    line(
        rt,
        "RAM",
        size,
        count,
        address,
        RamAddress(address).place(count, size),
    )
}

fn flash(rt: &impl Print, offset: u32, count: usize, size: usize) -> io::Result<()> {
    line(
        rt,
        "flash",
        size,
        count,
        offset,
        FlashOffset(offset).place(count, size),
    )
}

pub fn run(rt: &impl Print) -> io::Result<()> {
    ram(rt, 0x07FC_0000, 131_072, 131_072)?;
    ram(rt, 0x07FC_0000, 131_073, 131_072)?;
    ram(rt, 0x07FB_FFFF, 1, 131_072)?;
    ram(rt, 0x07FD_FFFF, 1, 131_072)?;
    ram(rt, 0x07FD_FFFF, 2, 131_072)?;
    ram(rt, 0x07FE_0000, 1, 131_072)?;
    ram(rt, 0xFFFF_FFFF, 1, 131_072)?;
    ram(rt, 0x0000_0000, 1, 131_072)?;
    flash(rt, 0, 4_096, 4_096)?;
    flash(rt, 4_095, 1, 4_096)?;
    flash(rt, 4_095, 2, 4_096)?;
    flash(rt, 4_096, 1, 4_096)?;
    flash(rt, 0xFFFF_FFFF, 1, 4_194_304)?;
    flash(rt, 0xFFFF_FFFF, 0xFFFF_FFFF, 4_194_304)
}
