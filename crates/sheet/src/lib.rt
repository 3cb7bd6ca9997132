// An image sheet: a lent file together with the place of its code, for a display.
#![tactic(auto)]

ghost use Rattle.std.specs.Prelude.{◌≡◌};
ghost use Rattle.sheet.specs.Sheet.{refusal_number, place_of, code_in, code_place, Shows};

use image::{HEADER, image_at};
use wire::range::place_in;

// The number given where the file is not a valid image.
pub const BAD_FILE: u32 = 67;

// Why a file has no sheet.
#[derive(Clone, Copy, Debug, PartialEq, Eq)]
pub enum Refusal {
    BadFile,
}

// A refusal's number.
impl From<Refusal> for u32 {
    ghost from_gives = { λ refusal number. number ≡ refusal_number refusal };

    fn from(refusal: Refusal) -> u32 {
        match refusal {
            Refusal::BadFile => BAD_FILE,
        }
    }
}

// Where a file's code lies, and how many bytes it has; zeros stand for no code.
#[derive(Clone, Copy, Debug, Default, PartialEq, Eq)]
pub struct Code {
    pub place: usize,
    pub size: usize,
}

// Where the code of a file lies.
#[tactic(auto, unfolding(crate::specs::Sheet::place_of))]
pub fn place_of(file: &[u8]) -> Result<Code, Refusal>
    ensures { result ≡ place_of file.now }
{
    let image = image_at(file, 0).ok_or(Refusal::BadFile)?;
    Ok(Code {
        place: HEADER,
        size: image.size,
    })
}

fn code_in(file: &[u8]) -> Code
    ensures { result ≡ code_in file.now }
{
    place_of(file).unwrap_or_default()
}

// The place that the sheet of a file holds.
#[tactic(auto, unfolding(crate::specs::Sheet::code_place))]
pub fn code_place(file: &[u8]) -> usize
    ensures { result ≡ code_place file.now }
{
    code_in(file).place
}

// What a sheet shows that holds this file and place.
#[tactic(auto, using(crate::proofs::Taken::taken))]
pub fn part_at<'a>(file: &'a [u8], place: usize) -> &'a [u8]
    ensures { Shows file.entry place result }
{
    let size = code_in(file).size;
    match place_in(place, size, 0, file.len()) {
        Some(_) => &file[place..place + size],
        None => &file[0..0],
    }
}

// A lent file, and the place at which a display shows its code.
#[derive(Clone, Copy)]
pub struct Sheet<'a> {
    pub file: &'a [u8],
    pub place: usize,
}

impl<'a> Sheet<'a> {
    // The sheet of a file. Whether the file is a valid image is told by `place_of`.
    pub fn of(file: &'a [u8]) -> Sheet<'a>
        ensures { (result.file ≡ file.entry) × (result.place ≡ code_place file.now) }
    {
        let place = code_place(file);
        Sheet { file, place }
    }

    // The code part that a sheet shows.
    pub fn code(self) -> &'a [u8]
        ensures { Shows self.entry.file self.entry.place result }
    {
        part_at(self.file, self.place)
    }
}

// The code part that a file's sheet shows.
pub fn code_of<'a>(file: &'a [u8]) -> &'a [u8]
    ensures { Shows file.entry (code_place file.now) result }
{
    Sheet::of(file).code()
}
