// CRC-16 and CRC-32: the check figures that catalogues print, bytes in two parts, and some kilobytes.
ghost use Rattle.std.specs.Prelude.{◌≤◌, length};

use crc::{Register, crc_of};
use std::io;

fn line(rt: &impl Print, short: u16, long: u32, name: &str) -> io::Result<()> {
    println!(rt; "CRC-16 {short:04x}  CRC-32 {long:08x}  {name}")
}

fn whole(rt: &impl Print, bytes: &[u8], name: &str) -> io::Result<()> {
    line(rt, crc_of(bytes), crc_of(bytes), name)
}

// The CRC of the same bytes in two parts, the second from `cut` on.
fn of_parts<R: Register>(bytes: &[u8], cut: usize) -> R
    requires { cut ≤ length bytes.now }
{
    R::START
        .after(&bytes[..cut])
        .after(&bytes[cut..])
        .finished()
}

fn in_parts(rt: &impl Print, bytes: &[u8], cut: usize, name: &str) -> io::Result<()>
    requires { cut ≤ length bytes.now }
{
    line(rt, of_parts(bytes, cut), of_parts(bytes, cut), name)
}

// 4,096 bytes that count from 0 to 255 again and again.
fn counting() -> [u8; 4096] {
    std::array::from_fn(|i| (i % 256) as u8)
}

fn in_catalogues(rt: &impl Print) -> io::Result<()> {
    whole(rt, b"123456789", "123456789")?;
    whole(rt, b"", "nothing")?;
    whole(rt, b"A", "A")?;
    whole(rt, b"a", "a")?;
    whole(rt, b"abc", "abc")?;
    let fox = "The quick brown fox jumps over the lazy dog";
    whole(rt, fox.as_bytes(), fox)
}

fn single_bytes(rt: &impl Print) -> io::Result<()> {
    whole(rt, b"\x00", "00")?;
    whole(rt, b"\x80", "80")?;
    whole(rt, b"\xFF", "FF")
}

fn cut_in_two(rt: &impl Print) -> io::Result<()> {
    let digits = b"123456789";
    in_parts(rt, digits, 0, "nothing, 123456789")?;
    in_parts(rt, digits, 4, "1234, 56789")?;
    in_parts(rt, digits, 9, "123456789, nothing")
}

fn kilobytes(rt: &impl Print) -> io::Result<()> {
    whole(rt, &[0u8; 4096], "4,096 times 00")?;
    whole(rt, &[0xFFu8; 4096], "4,096 times FF")?;
    whole(rt, &counting(), "00 to FF, 16 times")?;
    in_parts(rt, &counting(), 1000, "00 to FF, 16 times, cut at 1,000")
}

pub fn run(rt: &impl Print) -> io::Result<()> {
    in_catalogues(rt)?;
    single_bytes(rt)?;
    cut_in_two(rt)?;
    kilobytes(rt)
}
