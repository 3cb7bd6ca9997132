// The form of a recording's file: a head and entries.
ghost use Rattle.std.specs.Prelude.{◌≡◌, ◌<◌, ◌≤◌, length, drop, IfOk};
ghost use Rattle.recording.specs.Form.{head_length, head_fault, size_in, entry_head, past_entry, entry_fault};
ghost use Rattle.recording.specs.Form.{kind_number, kind_of, fault_number, number_of};
ghost use Rattle.recording.specs.Recording.{recording_of, fault_of};

use memory::compare::is_front;
use numbers::{number_at, read_at};

// What is wrong with a file.
#[derive(Clone, Copy, Debug, PartialEq, Eq)]
pub enum Fault {
    BadMark,
    BadVersion,
    UnknownKind,
    CutShort,
}

// The numbers given for what is wrong with a file.
const BAD_MARK: u32 = 81;

const BAD_VERSION: u32 = 82;

const UNKNOWN_KIND: u32 = 83;

const CUT_SHORT: u32 = 84;

impl From<Fault> for u32 {
    ghost from_gives = { λ fault number. number ≡ fault_number fault };

    fn from(fault: Fault) -> u32 {
        match fault {
            Fault::BadMark => BAD_MARK,
            Fault::BadVersion => BAD_VERSION,
            Fault::UnknownKind => UNKNOWN_KIND,
            Fault::CutShort => CUT_SHORT,
        }
    }
}

// The kinds of entries: bytes of the host, bytes of the device.
#[derive(Clone, Copy, Debug, PartialEq, Eq)]
pub enum Kind {
    Host,
    Device,
}

// The bytes that say a kind.
pub const HOST: u8 = 1;

pub const DEVICE: u8 = 2;

impl From<Kind> for u8 {
    ghost from_gives = { λ kind number. number ≡ kind_number kind };

    fn from(kind: Kind) -> u8 {
        match kind {
            Kind::Host => HOST,
            Kind::Device => DEVICE,
        }
    }
}

impl TryFrom<u8> for Kind {
    type Error = Fault;

    ghost try_from_gives = { λ number found. found ≡ kind_of number };

    fn try_from(number: u8) -> Result<Kind, Fault> {
        match number {
            HOST => Ok(Kind::Host),
            DEVICE => Ok(Kind::Device),
            _ => Err(Fault::UnknownKind),
        }
    }
}

// The text BLG, and the version after it.
const MARK: [u8; 3] = [0x42, 0x4C, 0x47];

const VERSION: u32 = 1;

// How many bytes the head has.
pub const HEAD: usize = 5;

// How many bytes an entry has before its own.
pub const ENTRY_HEAD: usize = 3;

// What follows the head.
fn past_head<'a>(file: &'a [u8]) -> Result<&'a [u8], Fault>
    ensures fault { number_of result ≡ head_fault file.now }
    ensures past { IfOk result (λ rest. rest.now ≡ drop head_length file.now) }
{
    if !is_front(&MARK, file) {
        return Err(Fault::BadMark);
    }
    if read_at::<2>(file, MARK.len()) != Some(VERSION) {
        return Err(Fault::BadVersion);
    }
    Ok(&file[HEAD..])
}

// How many bytes of its own the entry has that these bytes begin with.
#[tactic(auto, unfolding(crate::specs::Form::size_in))]
pub fn size_in(bytes: &[u8]) -> usize
    requires { entry_head ≤ length bytes.now }
    ensures { result ≡ size_in bytes.now }
{
    number_at::<2>(bytes, 1) as usize
}

// What follows the entry that these bytes begin with.
fn past_entry<'a>(bytes: &'a [u8]) -> Result<&'a [u8], Fault>
    requires { 0 < length bytes.now }
    ensures fault { number_of result ≡ entry_fault bytes.now }
    ensures past { IfOk result (λ rest. rest.now ≡ past_entry bytes.now) }
{
    Kind::try_from(bytes[0])?;
    if bytes.len() < ENTRY_HEAD {
        return Err(Fault::CutShort);
    }
    bytes[ENTRY_HEAD..]
        .get(size_in(bytes)..)
        .ok_or(Fault::CutShort)
}

// What is wrong first in a file.
pub fn check(file: &[u8]) -> Result<(), Fault>
    ensures { number_of result ≡ fault_of (recording_of file.now) }
{
    let mut rest = past_head(file)?;
    while !rest.is_empty() {
        rest = past_entry(rest)?;
    }
    Ok(())
}
