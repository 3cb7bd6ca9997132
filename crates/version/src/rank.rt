// The rank of a version: its numbers as one value.
ghost use Rattle.std.specs.Prelude.{◌≡◌};
ghost use Rattle.version.specs.Text.{all_zero};
ghost use Rattle.version.specs.Rank.{numbers_of, ranked, rank_of};

use crate::decimal::{Decimal, decimal_at};

// How many bytes a version field has.
pub const FIELD: usize = 16;

// How many numbers a text has at most, and a rank always.
pub const NUMBERS: usize = 4;

// The number given for malformed text, or a field of another length.
pub const MALFORMED: u32 = 61;

// A version's numbers, missing ones 0.
pub type Rank = [u32; NUMBERS];

// A rank with the number 0, or 61 and a rank of zeros. C gets it so.
#[repr(C)]
#[derive(Clone, Copy)]
pub struct Ranked {
    pub number: u32,
    pub rank: Rank,
}

impl From<Option<Rank>> for Ranked {
    ghost from_gives = { λ numbers r. r ≡ ranked numbers };

    fn from(numbers: Option<Rank>) -> Ranked {
        match numbers {
            Some(rank) => Ranked { number: 0, rank },
            None => Ranked {
                number: MALFORMED,
                rank: [0; NUMBERS],
            },
        }
    }
}

// Whether all bytes are 00.
fn all_zero(bytes: &[u8]) -> bool
    ensures { result ≡ all_zero bytes.now }
{
    bytes.iter().all(|&byte| byte == 0)
}

// The rank of a version field, if its text is well formed. Inlined, since a rank handed on in an Option is copied once more.
#[inline(always)]
#[tactic(auto, using(crate::proofs::Ranking::rankings), unfolding(crate::specs::Text::well_formed))]
pub fn numbers(field: &[u8]) -> Option<Rank>
    ensures { result ≡ numbers_of field.now }
{
    if field.len() != FIELD {
        return None;
    }
    let mut rank = [0; NUMBERS];
    let mut at = 0;
    for number in &mut rank {
        let Decimal { value, end } = decimal_at(field, at)?;
        *number = value;
        if field.get(end) != Some(&b'.') {
            return all_zero(&field[end..]).then_some(rank);
        }
        at = end + 1;
    }
    None
}

// The rank of a version field, as C gets it.
#[tactic(auto, unfolding(crate::specs::Rank::rank_of))]
pub fn rank(field: &[u8]) -> Ranked
    ensures { result ≡ rank_of field.now }
{
    numbers(field).into()
}
