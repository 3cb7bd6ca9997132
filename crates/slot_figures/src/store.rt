// Stores into memory. A byte that does not lie in the memory is left out.
use crate::row::number;

// Bytes that count from 0 to 31 again and again.
pub fn count(memory: &mut [u8]) {
    for (i, byte) in memory.iter_mut().enumerate() {
        *byte = (i % 32) as u8;
    }
}

// Bytes from a place on.
pub fn put_bytes(memory: &mut [u8], place: usize, bytes: &[u8]) {
    let there = memory.get_mut(place..).unwrap_or(&mut []);
    for (byte, value) in there.iter_mut().zip(bytes) {
        *byte = *value;
    }
}

// Bytes from a place on, 2 digits each.
pub fn put_digits(memory: &mut [u8], place: usize, digits: &[u8]) {
    let there = memory.get_mut(place..).unwrap_or(&mut []);
    for (byte, pair) in there.iter_mut().zip(digits.chunks_exact(2)) {
        *byte = (number(pair) % 256) as u8;
    }
}
