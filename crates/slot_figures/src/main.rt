// Runs figures of version text, flash slots, offers and sheets over the proved code. They are the rows of the file stdin beside
// src/; each is written again with what the code answers, and that is held to the file stdout.
#![tactic(auto)]

mod file;
mod offers;
mod row;
mod sheets;
mod slots;
mod store;
mod text;
mod versions;

use crate::row::replace_marks;
use show::{read_full, text};
use std::io;

// Room for the rows.
const ROOM: usize = 65_536;

fn show_answer(rt: &impl Print, room: &mut [u8], row: &[u8]) -> io::Result<()> {
    match row {
        [] => Ok(()),
        [b'v', ..] => versions::show_rank(rt, row),
        [b'c', ..] => versions::show_order(rt, row),
        [b'f', ..] => slots::show(rt, room, row),
        [b'o', ..] => offers::show(rt, row),
        _ => sheets::show(rt, row),
    }
}

fn show_row(rt: &impl Print, room: &mut [u8], row: &mut [u8]) -> io::Result<()> {
    text(rt, row)?;
    replace_marks(row);
    show_answer(rt, room, row)?;
    text(rt, b"\n")
}

// A row's last byte is the line's end.
fn show_rows(rt: &impl Print, room: &mut [u8], rows: &mut [u8]) -> io::Result<()> {
    for line in rows.split_inclusive_mut(|byte| *byte == b'\n') {
        if let Some((_, row)) = line.split_last_mut() {
            show_row(rt, room, row)?;
        }
    }
    Ok(())
}

fn main(rt: HostRuntime) -> io::Result<()> {
    let mut rows = [0u8; ROOM];
    let mut room = slots::room();
    let count = read_full(&rt, &mut rows)?;
    show_rows(&rt, &mut room, &mut rows[0..count])
}
