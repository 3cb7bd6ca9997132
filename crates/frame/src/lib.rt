// The boot frame: the code as a host sends it to the ROM's UART receiver.
#![tactic(auto)]

ghost use Rattle.std.specs.Prelude.{◌≡◌, ◌≤◌, length};
ghost use Rattle.memory.specs.Store.{laid};
ghost use Rattle.frame.specs.Frame.{longest, is_extended, header_of, frame_of, refusal_number, framed_as, written, framed_of};

use memory::store::lay;
use numbers::put::put;
use rom_flow::kind::{FIRST_EXTENDED, Kind};
use wire::line::{ACK, SOH};

// The number given where there is no code.
pub const EMPTY_CODE: u32 = 41;

// The number given where the code is longer than its kind allows.
pub const LONG_CODE: u32 = 42;

// The number given where the output is shorter than the frame.
pub const SHORT_OUTPUT: u32 = 43;

// The longest code of kind P.
pub const LONGEST_P: usize = 65_535;

// The longest code of kind E.
pub const LONGEST_E: usize = 131_071;

// The number 0 and the frame's length, or a refusal's number and length 0, as C takes it.
#[repr(C)]
#[derive(Clone, Copy)]
pub struct Framed {
    pub number: u32,
    pub length: usize,
}

// Why no frame is written.
#[derive(Clone, Copy, Debug, PartialEq, Eq)]
pub enum Refusal {
    EmptyCode,
    LongCode,
    ShortOutput,
}

impl From<Refusal> for u32 {
    ghost from_gives = { λ why number. number ≡ refusal_number why };

    fn from(why: Refusal) -> u32 {
        match why {
            Refusal::EmptyCode => EMPTY_CODE,
            Refusal::LongCode => LONG_CODE,
            Refusal::ShortOutput => SHORT_OUTPUT,
        }
    }
}

impl From<Result<usize, Refusal>> for Framed {
    ghost from_gives = { λ outcome framed. framed ≡ framed_as outcome };

    fn from(outcome: Result<usize, Refusal>) -> Framed {
        match outcome {
            Ok(length) => Framed { number: 0, length },
            Err(why) => Framed {
                number: why.into(),
                length: 0,
            },
        }
    }
}

fn longest(kind: Kind) -> usize
    ensures { result ≡ longest kind }
{
    match kind {
        Kind::P => LONGEST_P,
        Kind::E => LONGEST_E,
    }
}

// Whether the length of a code takes the extended field.
fn is_extended(kind: Kind, count: usize) -> bool
    ensures { result ≡ is_extended kind count }
{
    match kind {
        Kind::P => false,
        Kind::E => FIRST_EXTENDED <= count,
    }
}

// How many bytes the header has: 01 and the length field.
fn header_length(kind: Kind, count: usize) -> usize
    ensures { result ≡ length (header_of kind count) }
{
    if is_extended(kind, count) { 5 } else { 3 }
}

// Writes the header to the front of the output.
fn put_header(kind: Kind, count: usize, out: &mut [u8])
    requires { (count ≤ longest kind) × (length (header_of kind count) ≤ length out.old) }
    ensures { out.new ≡ laid (header_of kind count) out.old }
{
    out[0] = SOH;
    if is_extended(kind, count) {
        out[1] = 0;
        out[2] = 0;
        put::<2>(out, 3, (count - FIRST_EXTENDED) as u32);
        return;
    }
    put::<2>(out, 1, count as u32);
}

// Writes a frame to the front of an output that has room for it.
fn put_frame(kind: Kind, code: &[u8], out: &mut [u8])
    requires { (length code.now ≤ longest kind) × (length (frame_of kind code.now) ≤ length out.old) }
    ensures { out.new ≡ laid (frame_of kind code.now) out.old }
{
    let place = header_length(kind, code.len());
    put_header(kind, code.len(), out);
    lay(&mut out[place..], code);
    out[place + code.len()] = ACK;
}

// Writes the boot frame of a code to the front of the output, and gives its length. Where it is refused, the output stays as it was.
#[tactic(auto, unfolding(crate::specs::Frame::framed_of))]
pub fn write_frame(kind: Kind, code: &[u8], out: &mut [u8]) -> Result<usize, Refusal>
    ensures { written (framed_as result) out.new ≡ framed_of kind code.now out.old }
{
    let count = code.len();
    if count == 0 {
        return Err(Refusal::EmptyCode);
    }
    if longest(kind) < count {
        return Err(Refusal::LongCode);
    }
    let length = header_length(kind, count) + count + 1;
    if out.len() < length {
        return Err(Refusal::ShortOutput);
    }
    put_frame(kind, code, out);
    Ok(length)
}

// Writes the boot frame of a code, as C gets it.
pub fn frame(kind: Kind, code: &[u8], out: &mut [u8]) -> Framed
    ensures { written result out.new ≡ framed_of kind code.now out.old }
{
    write_frame(kind, code, out).into()
}
