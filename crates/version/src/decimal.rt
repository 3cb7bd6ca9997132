// A decimal number in a version text.
ghost use Rattle.std.specs.Prelude.{◌≡◌, ◌≤◌, length};
ghost use Rattle.version.specs.Decimal.{decimal_at};

// The largest number in a version.
const LARGEST: u32 = 65_535;

// A number's value, and the place after its last digit.
#[derive(Clone, Copy)]
pub struct Decimal {
    pub value: u32,
    pub end: usize,
}

// The number whose digits begin at `start`; none for no digit, a leading zero, or a number that is too large.
#[tactic(auto, using(crate::proofs::Digits::readings))]
pub fn decimal_at(field: &[u8], start: usize) -> Option<Decimal>
    requires { start ≤ length field.now }
    ensures { result ≡ decimal_at field.now start }
{
    let mut value: u32 = 0;
    let mut end = start;
    for &byte in &field[start..] {
        if !byte.is_ascii_digit() {
            break;
        }
        if start < end && value == 0 {
            return None;
        }
        value = value * 10 + u32::from(byte - b'0');
        if LARGEST < value {
            return None;
        }
        end += 1;
    }
    (start < end).then_some(Decimal { value, end })
}
