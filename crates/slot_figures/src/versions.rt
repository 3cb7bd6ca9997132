// Ranks of version fields, and orders of two.
use crate::row::part;
use crate::text::answer;
use show::text;
use std::io;
use version::order::order;
use version::rank::{Ranked, rank};

// The row is: version FIELD, of any length.
pub fn show_rank(rt: &impl Print, row: &[u8]) -> io::Result<()> {
    let Ranked { number, rank } = rank(part(row, 8, row.len()));
    answer(rt, number, b", rank", &rank.map(u64::from))
}

fn sign(rt: &impl Print, order: i32) -> io::Result<()> {
    match order {
        -1 => text(rt, b", order -1"),
        0 => text(rt, b", order 0"),
        1 => text(rt, b", order 1"),
        _ => Ok(()),
    }
}

// The row is: compare FIELD FIELD, of 16 bytes each.
pub fn show_order(rt: &impl Print, row: &[u8]) -> io::Result<()> {
    let ordered = order(part(row, 8, 24), part(row, 25, 41));
    answer(rt, ordered.number, b"", &[])?;
    sign(rt, ordered.order)
}
