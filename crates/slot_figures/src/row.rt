// The parts of a row. Numbers are hexadecimal, in lower case, and in a version field `_` stands for the byte 00 and `~` for FF.
ghost use Rattle.std.specs.Prelude.{◌<◌};

fn meant(mark: u8) -> u8 {
    match mark {
        b'_' => 0x00,
        b'~' => 0xFF,
        _ => mark,
    }
}

// The bytes that marks stand for, in their place.
pub fn replace_marks(row: &mut [u8]) {
    for mark in row.iter_mut() {
        *mark = meant(*mark);
    }
}

// The part from `start` up to `end`, empty where the row is too short.
pub fn part<'a>(row: &'a [u8], start: usize, end: usize) -> &'a [u8] {
    row.get(start..end).unwrap_or(&[])
}

fn digit(byte: u8) -> u64
    ensures { result < 16 }
{
    if byte < b'a' {
        (byte % 16) as u64
    } else {
        ((byte % 16 + 9) % 16) as u64
    }
}

// Only the last 16 digits count.
pub fn number(digits: &[u8]) -> u64 {
    digits
        .iter()
        .fold(0, |number, byte| number << 4 | digit(*byte))
}
