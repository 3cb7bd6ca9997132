// The flash slot that will start: the product header names two images, and the newer valid one starts.
#![tactic(auto)]

pub mod id;
pub mod product;
pub mod refused;

ghost use Rattle.std.specs.Prelude.{◌≡◌};
ghost use Rattle.slot.specs.Slot.{selected, chosen, select_of};

use crate::id::is_newer;
use crate::product::product_at;
use crate::refused::Refusal;
use image::{Image, image_at};

// The number 0 and slot 1 or 2, or a refusal's number and slot 0, as C takes it.
#[repr(C)]
#[derive(Clone, Copy, Debug, PartialEq, Eq)]
pub struct Selected {
    pub number: u32,
    pub slot: u32,
}

impl From<Result<u32, Refusal>> for Selected {
    ghost from_gives = { λ slot result. result ≡ selected slot };

    fn from(slot: Result<u32, Refusal>) -> Selected {
        match slot {
            Ok(slot) => Selected { number: 0, slot },
            Err(refusal) => Selected {
                number: u32::from(refusal),
                slot: 0,
            },
        }
    }
}

// Of two images, the slot that starts: that of the newer id, or slot 1.
fn choose(first: Option<Image>, second: Option<Image>) -> Result<u32, Refusal>
    ensures { selected result ≡ chosen first second }
{
    match (first, second) {
        (Some(first), Some(second)) if is_newer(second.id, first.id) => Ok(2),
        (Some(_), _) => Ok(1),
        (None, Some(_)) => Ok(2),
        (None, None) => Err(Refusal::NoImage),
    }
}

// The slot that starts, by the product header at an offset of the flash.
#[tactic(auto, unfolding(crate::specs::Slot::select_of))]
fn slot_at(flash: &[u8], offset: u32) -> Result<u32, Refusal>
    ensures { selected result ≡ select_of flash.now offset }
{
    let product = product_at(flash, offset)?;
    choose(
        image_at(flash, product.first as usize),
        image_at(flash, product.second as usize),
    )
}

// The slot that will start, by the product header at an offset of the flash, as C takes it.
pub fn select(flash: &[u8], offset: u32) -> Selected
    ensures { result ≡ select_of flash.now offset }
{
    Selected::from(slot_at(flash, offset))
}
