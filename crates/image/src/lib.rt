// Images: a header of 64 bytes and the code after it, in flash or in a file.
#![tactic(auto)]

pub mod rule;

ghost use Rattle.std.specs.Prelude.{◌≡◌, ◌+◌, ◌≤◌, length};
ghost use Rattle.wire.specs.Part.{IsPart};
ghost use Rattle.image.specs.Header.{is_marked, version_place, version_length, header_length};
ghost use Rattle.image.specs.Valid.{image_at};

use crate::rule::first_broken;
use numbers::number_at;
use wire::range::place_in;

// How many bytes an image header has; the code begins there.
pub const HEADER: usize = 64;

// The first byte of every mark.
pub const MARK: u8 = 0x70;

// A valid image: its id, and how many bytes of code it has.
#[derive(Clone, Copy, Debug, PartialEq, Eq)]
pub struct Image {
    pub id: u8,
    pub size: usize,
}

// Whether a header has the mark 70 and `second`.
pub fn is_marked(memory: &[u8], offset: usize, second: u8) -> bool
    requires { offset + 2 ≤ length memory.now }
    ensures { result ≡ is_marked memory.now offset second }
{
    memory[offset..].starts_with(&[MARK, second])
}

// The valid image at an offset of a memory; of a file, at 0.
#[tactic(auto, using(crate::proofs::Headers::headers), unfolding(crate::specs::Valid::image_at, crate::specs::Valid::is_valid))]
pub fn image_at(memory: &[u8], offset: usize) -> Option<Image>
    ensures { result ≡ image_at memory.now offset }
{
    place_in(offset, HEADER, 0, memory.len())?;
    if first_broken(memory, offset).is_some() {
        return None;
    }
    Some(Image {
        id: memory[offset + 3],
        size: number_at::<4>(memory, offset + 4) as usize,
    })
}

// The version's field in the image header at the start of a file, as a part of that file.
pub fn version_of<'a>(file: &'a [u8]) -> &'a [u8]
    requires { header_length ≤ length file.now }
    ensures { IsPart result file.entry version_place version_length }
{
    &file[12..28]
}
