// The order of two versions.
ghost use Rattle.std.specs.Prelude.{◌≡◌};
ghost use Rattle.version.specs.Order.{compared, compared_fields, ordered, order_of};

use crate::rank::{MALFORMED, Rank, numbers};
use std::cmp::Ordering;

// Two ranks, number by number.
#[tactic(auto, using(crate::proofs::Orders::by_place))]
pub fn compare(a: Rank, b: Rank) -> Ordering
    ensures { result ≡ compared a b }
{
    a.cmp(&b)
}

// Two version fields, if both are well formed.
#[tactic(auto, using(crate::proofs::Orders::compared_by))]
pub fn compare_fields(a: &[u8], b: &[u8]) -> Option<Ordering>
    ensures { result ≡ compared_fields a.now b.now }
{
    Some(compare(numbers(a)?, numbers(b)?))
}

// An order, -1, 0 or 1, with the number 0; or order 0 with 61. C gets it so.
#[repr(C)]
#[derive(Clone, Copy)]
pub struct Ordered {
    pub number: u32,
    pub order: i32,
}

impl From<Option<Ordering>> for Ordered {
    ghost from_gives = { λ order r. r ≡ ordered order };

    fn from(order: Option<Ordering>) -> Ordered {
        match order {
            Some(order) => Ordered {
                number: 0,
                order: order as i32,
            },
            None => Ordered {
                number: MALFORMED,
                order: 0,
            },
        }
    }
}

// The order of two version fields, as C gets it.
#[tactic(auto, unfolding(crate::specs::Order::order_of))]
pub fn order(a: &[u8], b: &[u8]) -> Ordered
    ensures { result ≡ order_of a.now b.now }
{
    compare_fields(a, b).into()
}
