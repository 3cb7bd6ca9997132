// Image files. A file counts from 0 to 31 again and again, but for the header, with the version, and 8 bytes from 64 on.
use crate::row::{number, part};
use crate::store::{count, put_bytes, put_digits};

// Room for the longest file.
pub const ROOM: usize = 96;

// A file's record is LENGTH HEADER VERSION CODE: 2 digits, 24, 16 bytes with marks, 16 digits.
pub fn store(room: &mut [u8], record: &[u8]) {
    count(room);
    put_digits(room, 0, part(record, 3, 27));
    put_bytes(room, 12, part(record, 28, 44));
    put_digits(room, 64, part(record, 45, 61));
}

// The file is the first bytes of its room, as many as the record says.
pub fn stored<'a>(room: &'a [u8], record: &[u8]) -> &'a [u8] {
    part(room, 0, number(part(record, 0, 2)) as usize)
}
