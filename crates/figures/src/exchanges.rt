// Exchanges with a receiver and with uartboot, each in one call from a fresh record.
use crc::crc_of;
use machine::{Accepted, Record};
use rom_flow::kind::Receiver;
use show::bytes;
use std::io;
use uartboot_flow::kind::Uartboot;

// What went, and the record then; a refused call sends nothing and leaves the record that it was given.
fn line(
    rt: &impl Print,
    name: &str,
    host: &[u8],
    reply: &[u8],
    done: Option<Accepted>,
    given: Record,
) -> io::Result<()> {
    let (sent, session) = match done {
        Some(done) => (done.sent, done.session),
        None => (0, given),
    };
    print!(rt; "{name}, host")?;
    bytes(rt, host)?;
    print!(rt; ": device")?;
    bytes(rt, reply.get(..sent).unwrap_or(reply))?;
    println!(rt; "; phase {}, length {}", session.phase, session.length)
}

// A RAM of 65,536 bytes.
fn extended(rt: &impl Print, host: &[u8]) -> io::Result<()> {
    let mut reply = [0u8; 16];
    let mut ram = [0u8; 65_536];
    let fresh = Receiver::fresh(Receiver::E);
    let done = rom::session::call(fresh, host, &mut reply, &mut ram).ok();
    line(rt, "E", host, &reply, done, fresh)
}

fn uartboot(rt: &impl Print, host: &[u8], flash: &mut [u8]) -> io::Result<()> {
    let mut reply = [0u8; 32];
    let mut ram = [0u8; 16];
    let mut work = [0u8; 64];
    let fresh = Uartboot::fresh();
    let done = uartboot::session::call(fresh, host, &mut reply, &mut ram, flash, &mut work).ok();
    line(rt, "uartboot", host, &reply, done, fresh)
}

// Offset 4,096, size 4,096.
fn erase_second_sector(rt: &impl Print) -> io::Result<()> {
    let mut flash = [0u8; 12_288];
    uartboot(
        rt,
        b"\x01\x04\x08\x00\x00\x10\x00\x00\x00\x10\x00\x00\x06",
        &mut flash,
    )?;
    let crc = crc_of::<u32>(&flash);
    println!(rt;
        "the flash of 12288 bytes, which held 00: CRC-32 {crc:08x}, that of 4096 times 00, 4096 times FF, 4096 times 00"
    )
}

fn version(rt: &impl Print) -> io::Result<()> {
    let mut flash = [0u8; 4_096];
    uartboot(rt, b"\x01\x0B\x00\x00\x06", &mut flash)
}

pub fn run(rt: &impl Print) -> io::Result<()> {
    extended(rt, b"\x01\xFF\xFF")?;
    erase_second_sector(rt)?;
    version(rt)
}
