// An offer: of two image files, the installed one and a candidate, the one with the higher version.
#![tactic(auto)]

ghost use Rattle.std.specs.Prelude.{◌≡◌};
ghost use Rattle.offer.specs.Offer.{refusal_number, file_number, offered, offer_of, HandsBack};

use image::{HEADER, image_at, version_of};
use version::order::compare_fields;
use version::rank::MALFORMED;

// The number given where the installed image is not valid.
pub const BAD_INSTALLED: u32 = 62;

// The number given where the candidate is not valid.
pub const BAD_CANDIDATE: u32 = 63;

// The number of the installed file.
pub const INSTALLED: u32 = 1;

// The number of the candidate.
pub const CANDIDATE: u32 = 2;

// Why nothing is offered.
#[derive(Clone, Copy, Debug, PartialEq, Eq)]
pub enum Refusal {
    BadInstalled,
    BadCandidate,
    // Either version's text is malformed.
    Malformed,
}

// A refusal's number.
impl From<Refusal> for u32 {
    ghost from_gives = { λ refusal number. number ≡ refusal_number refusal };

    fn from(refusal: Refusal) -> u32 {
        match refusal {
            Refusal::BadInstalled => BAD_INSTALLED,
            Refusal::BadCandidate => BAD_CANDIDATE,
            Refusal::Malformed => MALFORMED,
        }
    }
}

// One of the two files.
#[derive(Clone, Copy, Debug, PartialEq, Eq)]
pub enum File {
    Installed,
    Candidate,
}

// A file's number.
impl From<File> for u32 {
    ghost from_gives = { λ file number. number ≡ file_number file };

    fn from(file: File) -> u32 {
        match file {
            File::Installed => INSTALLED,
            File::Candidate => CANDIDATE,
        }
    }
}

// The file that wins, and how many bytes of code it has.
#[derive(Clone, Copy, Debug, PartialEq, Eq)]
pub struct Winner {
    pub file: File,
    pub size: usize,
}

// The number 0, the file that wins, and where its code lies there; or a refusal's number and zeros, as C takes it.
#[repr(C)]
#[derive(Clone, Copy, Debug, PartialEq, Eq)]
pub struct Offered {
    pub number: u32,
    pub file: u32,
    pub place: usize,
    pub size: usize,
}

impl From<Result<Winner, Refusal>> for Offered {
    ghost from_gives = { λ winner result. result ≡ offered winner };

    fn from(winner: Result<Winner, Refusal>) -> Offered {
        match winner {
            Ok(winner) => Offered {
                number: 0,
                file: u32::from(winner.file),
                place: HEADER,
                size: winner.size,
            },
            Err(refusal) => Offered {
                number: u32::from(refusal),
                file: 0,
                place: 0,
                size: 0,
            },
        }
    }
}

// The winner of two files: the candidate, where its version is the higher one.
#[tactic(auto, using(image::proofs::Images::found_inside), unfolding(crate::specs::Offer::offer_of))]
fn decide(installed: &[u8], candidate: &[u8]) -> Result<Winner, Refusal>
    ensures { offered result ≡ offer_of installed.now candidate.now }
{
    let ours = image_at(installed, 0).ok_or(Refusal::BadInstalled)?;
    let other = image_at(candidate, 0).ok_or(Refusal::BadCandidate)?;
    let versions = compare_fields(version_of(installed), version_of(candidate));
    let (file, size) = if versions.ok_or(Refusal::Malformed)?.is_lt() {
        (File::Candidate, other.size)
    } else {
        (File::Installed, ours.size)
    };
    Ok(Winner { file, size })
}

// The offer of two files.
pub fn judge(installed: &[u8], candidate: &[u8]) -> Offered
    ensures { result ≡ offer_of installed.now candidate.now }
{
    Offered::from(decide(installed, candidate))
}

// The code of the file that wins, as a part of that file, and the offer's number. Where the offer is refused, the part is the
// installed file's first 0 bytes. The number stays lent, for the clause `number_after`.
#[tactic(auto, using(crate::proofs::Handed::handed))]
pub fn offer<'a>(installed: &'a [u8], candidate: &'a [u8], number: &mut u32) -> &'a [u8]
    ensures hands_back { HandsBack installed.entry candidate.entry result }
    ensures number_after { number.new ≡ (offer_of installed.now candidate.now).number }
{
    let winner = decide(installed, candidate);
    *number = winner.map_or_else(u32::from, |_| 0);
    let Ok(Winner { file, size }) = winner else {
        return &installed[0..0];
    };
    match file {
        File::Candidate => &candidate[HEADER..HEADER + size],
        File::Installed => &installed[HEADER..HEADER + size],
    }
}
