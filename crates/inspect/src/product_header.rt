// What a product header says.
ghost use Rattle.std.specs.Prelude.{◌≡◌};
ghost use Rattle.inspect.specs.Product.{product_numbers, read_product};

use slot::product::{Product, product_at};
use slot::refused::Refusal;

// The number 0 and the flash offsets of the two images, or a refusal's number and zeros, as C takes it.
#[repr(C)]
#[derive(Clone, Copy, Debug, PartialEq, Eq)]
pub struct ProductRead {
    pub number: u32,
    pub first: u32,
    pub second: u32,
}

impl From<Result<Product, Refusal>> for ProductRead {
    ghost from_gives = { λ product read. read ≡ product_numbers product };

    fn from(product: Result<Product, Refusal>) -> ProductRead {
        match product {
            Ok(product) => ProductRead {
                number: 0,
                first: product.first,
                second: product.second,
            },
            Err(refusal) => ProductRead {
                number: u32::from(refusal),
                first: 0,
                second: 0,
            },
        }
    }
}

// The product header at an offset of the flash.
pub fn read_product(flash: &[u8], offset: u32) -> ProductRead
    ensures { result ≡ read_product flash.now offset }
{
    ProductRead::from(product_at(flash, offset))
}
