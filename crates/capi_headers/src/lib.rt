// The functions that C calls to make headers: numbers by value, byte slices as pointer and length, results by value.
#![tactic(auto)]

ghost use Rattle.std.specs.Prelude.{◌≡◌};
ghost use Rattle.headers.specs.ImageHeader.{image_header_of};
ghost use Rattle.headers.specs.ProductHeader.{product_header_of};

use headers::{ImageHeader, ProductHeader};

// The image header of a code.
#[unsafe(no_mangle)]
pub extern "C" fn und_make_image_header(
    code: &[u8],
    id: u8,
    version: &[u8],
    time: u32,
) -> ImageHeader
    ensures { result ≡ image_header_of code.now id version.now time }
{
    headers::image_header(code, id, version, time)
}

// The product header that names two image offsets.
#[unsafe(no_mangle)]
pub extern "C" fn und_make_product_header(first: u32, second: u32) -> ProductHeader
    ensures { result ≡ product_header_of first second }
{
    headers::product_header(first, second)
}
