// What an image header says, and the first rule that the image breaks.
ghost use Rattle.std.specs.Prelude.{◌≡◌};
ghost use Rattle.inspect.specs.Image.{read_image};

use image::HEADER;
use image::rule::{Rule, first_broken, number_of};
use numbers::number_at;
use wire::range::place_in;

// Where the version's field begins in the header.
const VERSION: usize = 12;

// The rule's number, 0 for a valid image, and what the header says. Where the header does not lie in the memory,
// zeros. C takes it so.
#[repr(C)]
#[derive(Clone, Copy, Debug, Default, PartialEq, Eq)]
pub struct ImageRead {
    pub rule: u32,
    pub id: u32,
    pub size: u32,
    pub version_place: usize,
    pub code_place: usize,
}

// The image whose header begins at an offset of a memory.
#[tactic(auto, using(crate::proofs::Missing::headers), unfolding(crate::specs::Image::read_image))]
pub fn read_image(memory: &[u8], offset: u32) -> ImageRead
    ensures { result ≡ read_image memory.now offset }
{
    let start = offset as usize;
    if place_in(start, HEADER, 0, memory.len()).is_none() {
        return ImageRead {
            rule: u32::from(Rule::Header),
            ..ImageRead::default()
        };
    }
    ImageRead {
        rule: number_of(first_broken(memory, start)),
        id: u32::from(memory[start + 3]),
        size: number_at::<4>(memory, start + 4),
        version_place: start + VERSION,
        code_place: start + HEADER,
    }
}
