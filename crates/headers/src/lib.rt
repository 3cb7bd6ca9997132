// Headers that are made: that of an image for a code, and a product header for two offsets.
#![tactic(auto)]

ghost use Rattle.std.specs.Prelude.{◌≡◌, length};
ghost use Rattle.version.specs.Text.{field_length};
ghost use Rattle.headers.specs.ProductHeader.{product_header_of};
ghost use Rattle.headers.specs.ImageHeader.{refusal_number, header, header_bytes, image_header_of};

use crc::crc_of;
use image::rule::{IMAGE_MARK, LARGEST, VALID_FLAG};
use image::{HEADER, MARK};
use memory::store::lay;
use numbers::put::put;
use slot::product::{PRODUCT, PRODUCT_MARK};
use version::rank::{MALFORMED, numbers};

// The number given where there is no code.
pub const EMPTY_CODE: u32 = 41;

// The number given where the code is larger than an image's.
pub const LONG_CODE: u32 = 42;

// Why no image header is made.
#[derive(Clone, Copy, Debug, PartialEq, Eq)]
pub enum Refusal {
    EmptyCode,
    LongCode,
    // The version's text is malformed.
    Malformed,
}

// A refusal's number.
impl From<Refusal> for u32 {
    ghost from_gives = { λ refusal number. number ≡ refusal_number refusal };

    fn from(refusal: Refusal) -> u32 {
        match refusal {
            Refusal::EmptyCode => EMPTY_CODE,
            Refusal::LongCode => LONG_CODE,
            Refusal::Malformed => MALFORMED,
        }
    }
}

// The number 0 and the header, or a refusal's number and zeros, as C takes it.
#[repr(C)]
#[derive(Clone, Copy)]
pub struct ImageHeader {
    pub number: u32,
    pub bytes: [u8; HEADER],
}

impl From<Result<[u8; HEADER], Refusal>> for ImageHeader {
    ghost from_gives = { λ made result. result ≡ header made };

    fn from(made: Result<[u8; HEADER], Refusal>) -> ImageHeader {
        match made {
            Ok(bytes) => ImageHeader { number: 0, bytes },
            Err(refusal) => ImageHeader {
                number: u32::from(refusal),
                bytes: [0; HEADER],
            },
        }
    }
}

#[repr(C)]
#[derive(Clone, Copy)]
pub struct ProductHeader {
    pub bytes: [u8; PRODUCT],
}

// The product header that names two image offsets.
pub fn product_header(first: u32, second: u32) -> ProductHeader
    ensures { result ≡ product_header_of first second }
{
    let mut bytes = [0; PRODUCT];
    bytes[0] = MARK;
    bytes[1] = PRODUCT_MARK;
    put::<4>(&mut bytes, 4, first);
    put::<4>(&mut bytes, 8, second);
    ProductHeader { bytes }
}

// The bytes of an image header.
fn header_bytes(id: u8, size: u32, crc: u32, version: &[u8], time: u32) -> [u8; HEADER]
    requires { length version.now ≡ field_length }
    ensures { result ≡ header_bytes id size crc version.now time }
{
    let mut bytes = [0; HEADER];
    bytes[0] = MARK;
    bytes[1] = IMAGE_MARK;
    bytes[2] = VALID_FLAG;
    bytes[3] = id;
    put::<4>(&mut bytes, 4, size);
    put::<4>(&mut bytes, 8, crc);
    put::<4>(&mut bytes, 28, time);
    lay(&mut bytes[12..], version);
    bytes
}

// The header of a code, unless code or version is refused.
#[tactic(auto, using(crate::proofs::Outcomes::outcomes), unfolding(crate::specs::ImageHeader::image_header_of))]
fn make(code: &[u8], id: u8, version: &[u8], time: u32) -> Result<[u8; HEADER], Refusal>
    ensures { header result ≡ image_header_of code.now id version.now time }
{
    let size = code.len();
    if size == 0 {
        return Err(Refusal::EmptyCode);
    }
    if LARGEST < size {
        return Err(Refusal::LongCode);
    }
    numbers(version).ok_or(Refusal::Malformed)?;
    Ok(header_bytes(id, size as u32, crc_of::<u32>(code), version, time))
}

// The image header of a code, with which it is a valid image.
pub fn image_header(code: &[u8], id: u8, version: &[u8], time: u32) -> ImageHeader
    ensures { result ≡ image_header_of code.now id version.now time }
{
    ImageHeader::from(make(code, id, version, time))
}
