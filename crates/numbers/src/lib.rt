// Little-endian numbers of up to 4 bytes, read, written and put together from two bytes.
#![tactic(auto)]

ghost use Rattle.std.specs.Prelude.{◌≡◌, [], ◌∷◌, ◌+◌, ◌≤◌, length};
ghost use Rattle.numbers.specs.Number.{number_of, number_at, read_narrow, paired, low_byte, high_byte};

use wire::range::place_in;

pub mod put;

// The number that 2 bytes make, the first one lowest.
pub fn number16(b0: u8, b1: u8) -> u16
    ensures { result ≡ number_of (b0 ∷ b1 ∷ []) }
{
    u16::from_le_bytes([b0, b1])
}

// The number that 4 bytes make. Beside `number16`, since each result is as wide as its bytes.
pub fn number32(b0: u8, b1: u8, b2: u8, b3: u8) -> u32
    ensures { result ≡ number_of (b0 ∷ b1 ∷ b2 ∷ b3 ∷ []) }
{
    u32::from_le_bytes([b0, b1, b2, b3])
}

// The number in the WIDTH bytes from a place on, for a caller that knows them to be there.
#[tactic(auto, using(crate::proofs::Numbers::number_there))]
pub fn number_at<const WIDTH: usize>(bytes: &[u8], place: usize) -> u32
    requires narrow { WIDTH ≤ 4 }
    requires there { place + WIDTH ≤ length bytes.now }
    ensures { result ≡ number_at WIDTH bytes.now place }
{
    let mut word = [0; 4];
    word[..WIDTH].copy_from_slice(&bytes[place..place + WIDTH]);
    u32::from_le_bytes(word)
}

// The number in the WIDTH bytes from any place on, of up to 4.
#[tactic(auto, unfolding(crate::specs::Number::read_at, wire::specs::Range::place_in, wire::specs::Range::lies_in))]
pub fn read_at<const WIDTH: usize>(bytes: &[u8], place: usize) -> Option<u32>
    ensures { result ≡ read_narrow WIDTH bytes.now place }
{
    if 4 < WIDTH {
        return None;
    }
    let at = place_in(place, WIDTH, 0, bytes.len())?;
    Some(number_at::<WIDTH>(bytes, at))
}

// The number that a low part and a high byte make. A low part from a record may be any number.
pub fn pair(low: u32, high: u8) -> usize
    ensures { result ≡ paired low high }
{
    (low as usize) + 256 * (high as usize)
}

// A number's lowest byte.
pub fn low_byte(number: u32) -> u8
    ensures { result ≡ low_byte number }
{
    (number % 256) as u8
}

// The byte above it.
pub fn high_byte(number: u32) -> u8
    ensures { result ≡ high_byte number }
{
    (number / 256 % 256) as u8
}
