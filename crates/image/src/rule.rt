// The rules of validity, and the first that an image breaks.
ghost use Rattle.std.specs.Prelude.{◌≡◌, ◌+◌, ◌≤◌, length};
ghost use Rattle.image.specs.Header.{header_length};
ghost use Rattle.image.specs.Rule.{own_number, rule_number, first_broken};

use crate::{HEADER, is_marked};
use crc::crc_of;
use numbers::number_at;

// The mark of an image header is 70 and this byte.
pub const IMAGE_MARK: u8 = 0x51;

// The flag of a valid image.
pub const VALID_FLAG: u8 = 0xAA;

// The largest size of the code.
pub const LARGEST: usize = 131_072;

// What is tested of an image, in this order.
#[derive(Clone, Copy, Debug, PartialEq, Eq)]
pub enum Rule {
    // The header lies wholly in the memory.
    Header,
    Mark,
    Flag,
    Size,
    // Header and code lie wholly in the memory.
    Reach,
    Encrypted,
    Crc,
}

// A rule's number.
impl From<Rule> for u32 {
    ghost from_gives = { λ rule number. number ≡ own_number rule };

    fn from(rule: Rule) -> u32 {
        match rule {
            Rule::Header => 1,
            Rule::Mark => 2,
            Rule::Flag => 3,
            Rule::Size => 4,
            Rule::Reach => 5,
            Rule::Encrypted => 6,
            Rule::Crc => 7,
        }
    }
}

// The number of a broken rule; 0 where none is broken.
pub fn number_of(broken: Option<Rule>) -> u32
    ensures { result ≡ rule_number broken }
{
    broken.map_or(0, u32::from)
}

// The first rule that an image breaks, if any. Its header begins at an offset and lies in the memory.
#[tactic(auto, unfolding(crate::specs::Rule::first_broken))]
pub fn first_broken(memory: &[u8], offset: usize) -> Option<Rule>
    requires { offset + header_length ≤ length memory.now }
    ensures { result ≡ first_broken memory.now offset }
{
    if !is_marked(memory, offset, IMAGE_MARK) {
        return Some(Rule::Mark);
    }
    if memory[offset + 2] != VALID_FLAG {
        return Some(Rule::Flag);
    }
    let size = number_at::<4>(memory, offset + 4) as usize;
    if size == 0 || LARGEST < size {
        return Some(Rule::Size);
    }
    let code = offset + HEADER;
    if memory.len() - code < size {
        return Some(Rule::Reach);
    }
    if memory[offset + 32] != 0 {
        return Some(Rule::Encrypted);
    }
    if crc_of::<u32>(&memory[code..code + size]) != number_at::<4>(memory, offset + 8) {
        return Some(Rule::Crc);
    }
    None
}
