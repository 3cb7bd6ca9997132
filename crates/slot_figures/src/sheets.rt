// Sheets of files.
use crate::file::{ROOM, store, stored};
use crate::row::{number, part};
use crate::text::answer;
use sheet::{code_of, part_at, place_of};
use show::{bytes, text};
use std::io;

fn show_file(rt: &impl Print, file: &[u8], place: usize) -> io::Result<()> {
    let placed = place_of(file);
    let code = placed.unwrap_or_default();
    answer(
        rt,
        placed.map_or_else(u32::from, |_| 0),
        b", place and size",
        &[code.place as u64, code.size as u64],
    )?;
    text(rt, b"; code")?;
    bytes(rt, code_of(file))?;
    text(rt, b"; part")?;
    bytes(rt, part_at(file, place))
}

fn show_in(rt: &impl Print, room: &mut [u8], row: &[u8]) -> io::Result<()> {
    let record = part(row, 6, 67);
    store(room, record);
    show_file(rt, stored(room, record), number(part(row, 68, 84)) as usize)
}

// The row is: sheet, the record of a file, and a PLACE of 16 digits at which its sheet is read.
pub fn show(rt: &impl Print, row: &[u8]) -> io::Result<()> {
    let mut room = [0u8; ROOM];
    show_in(rt, &mut room, row)
}
