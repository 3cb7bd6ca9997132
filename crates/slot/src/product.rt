// The product header, which names two images.
ghost use Rattle.std.specs.Prelude.{◌≡◌};
ghost use Rattle.slot.specs.Product.{product_at};

use crate::refused::Refusal;
use image::is_marked;
use numbers::number_at;
use wire::length::is_flash_length;
use wire::unit::FlashOffset;

// How many bytes the product header has.
pub const PRODUCT: usize = 12;

// The mark of a product header is 70 and this byte.
pub const PRODUCT_MARK: u8 = 0x52;

// A product header: the flash offsets of image 1 and of image 2.
#[derive(Clone, Copy, Debug, PartialEq, Eq)]
pub struct Product {
    pub first: u32,
    pub second: u32,
}

// The product header at an offset of the flash.
#[tactic(auto, using(crate::proofs::Headers::headers), unfolding(crate::specs::Product::product_at, crate::specs::Product::product_marked))]
pub fn product_at(flash: &[u8], offset: u32) -> Result<Product, Refusal>
    ensures { result ≡ product_at flash.now offset }
{
    if !is_flash_length(flash.len()) {
        return Err(Refusal::BadFlash);
    }
    let start = FlashOffset(offset)
        .place(PRODUCT, flash.len())
        .ok_or(Refusal::NoHeader)?;
    if !is_marked(flash, start, PRODUCT_MARK) {
        return Err(Refusal::WrongMark);
    }
    let first = number_at::<4>(flash, start + 4);
    let second = number_at::<4>(flash, start + 8);
    Ok(Product { first, second })
}
