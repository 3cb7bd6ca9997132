// Offers of two files, the installed one and a candidate.
use crate::file::{ROOM, store, stored};
use crate::row::part;
use crate::text::answer;
use offer::{judge, offer};
use show::{bytes, text};
use std::io;

fn show_judged(rt: &impl Print, installed: &[u8], candidate: &[u8]) -> io::Result<()> {
    let offered = judge(installed, candidate);
    answer(
        rt,
        offered.number,
        b", file, place and size",
        &[
            offered.file as u64,
            offered.place as u64,
            offered.size as u64,
        ],
    )
}

fn show_offered<'a>(rt: &impl Print, installed: &'a [u8], candidate: &'a [u8]) -> io::Result<()> {
    let mut number: u32 = 0;
    let code = offer(installed, candidate, &mut number);
    text(rt, b"; part")?;
    bytes(rt, code)?;
    answer(rt, number, b"", &[])
}

fn show_files<'a>(rt: &impl Print, installed: &'a [u8], candidate: &'a [u8]) -> io::Result<()> {
    show_judged(rt, installed, candidate)?;
    show_offered(rt, installed, candidate)
}

fn show_in(
    rt: &impl Print,
    installed: &mut [u8],
    candidate: &mut [u8],
    row: &[u8],
) -> io::Result<()> {
    let first = part(row, 6, 67);
    let second = part(row, 68, 129);
    store(installed, first);
    store(candidate, second);
    show_files(rt, stored(installed, first), stored(candidate, second))
}

// The row is: offer, and the records of the installed file and of the candidate.
pub fn show(rt: &impl Print, row: &[u8]) -> io::Result<()> {
    let mut installed = [0u8; ROOM];
    let mut candidate = [0u8; ROOM];
    show_in(rt, &mut installed, &mut candidate, row)
}
