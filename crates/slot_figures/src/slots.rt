// Flashes, and the slot that starts. A flash counts from 0 to 31 again and again, but for the headers and one changed byte.
ghost use Rattle.std.specs.Prelude.{◌≡◌, ◌<◌, length};

use crate::row::{number, part};
use crate::store::{count, put_digits};
use crate::text::answer;
use slot::select;
use std::io;

// How many digits a number has.
const NUMBER: usize = 8;

// How many digits a header has.
const HEADER: usize = 24;

// Where a row has the length of the flash.
const LENGTH: usize = 6;

// Where it has the product header.
const PRODUCT: usize = 15;

// Where it has the first image's header.
const FIRST: usize = 49;

// Where it has the second image's header.
const SECOND: usize = 83;

// Where it has the changed byte.
const CHANGED: usize = 117;

// Room for the longest flash.
pub fn room() -> [u8; 4_198_400]
    ensures { 4198400 ≡ length result }
{
    [0; 4_198_400]
}

fn number_at(row: &[u8], start: usize) -> u64
    requires { start < 256 }
{
    number(part(row, start, start + NUMBER))
}

// An offset, a blank, and the bytes there.
fn put(flash: &mut [u8], row: &[u8], start: usize, digits: usize)
    requires { (start < 256) × (digits < 256) }
{
    let bytes = start + NUMBER + 1;
    put_digits(
        flash,
        number_at(row, start) as usize,
        part(row, bytes, bytes + digits),
    );
}

fn put_images(flash: &mut [u8], row: &[u8]) {
    put(flash, row, FIRST, HEADER);
    put(flash, row, SECOND, HEADER);
}

fn store(flash: &mut [u8], row: &[u8]) {
    count(flash);
    put_images(flash, row);
    put(flash, row, PRODUCT, HEADER);
    put(flash, row, CHANGED, 2);
}

fn show_in(rt: &impl Print, flash: &[u8], row: &[u8]) -> io::Result<()> {
    let header = (number_at(row, PRODUCT) % 0x1_0000_0000) as u32;
    let selected = select(flash, header);
    answer(rt, selected.number, b", slot", &[selected.slot as u64])
}

// The row is: flash LENGTH, then OFFSET BYTES of the product header, of the first image's header, of the second's, and of a
// changed byte.
pub fn show(rt: &impl Print, room: &mut [u8], row: &[u8]) -> io::Result<()> {
    let length = number_at(row, LENGTH) as usize;
    if length <= room.len() {
        store(&mut room[0..length], row);
        show_in(rt, &room[0..length], row)?;
    }
    Ok(())
}
