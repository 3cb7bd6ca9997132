// The code: stored as it arrives, its XOR, and the byte after that.
ghost use Rattle.std.specs.Prelude.{◌≡◌, ◌≤◌, ◌<◌, length, take};
ghost use Rattle.rom_flow.specs.Gives.{EndsIn, CodeTaken};
ghost use Rattle.rom_flow.specs.Flow.{xor_of, code_step, acked};

use machine::step::{Moved, Progress, to};
use memory::copy::copy_up_to;
use rom_flow::step::Step;
use wire::line::ACK;
use wire::unit::{RAM_BASE, RamAddress};

// The reason where the byte after the XOR is not 06.
pub const NOT_ACKED: u32 = 34;

// The step once `count` of the code's bytes are in.
fn code_step(total: u32, count: u32) -> Step
    ensures { result ≡ code_step total count }
{
    if count < total {
        Step::TakeCode(total, count)
    } else {
        Step::SendXor(total)
    }
}

// Takes as many code bytes as are wanted and there, from input byte i on, straight into the RAM from their place on.
pub fn take_code(
    total: u32,
    place: u32,
    reason: u32,
    input: &[u8],
    i: usize,
    ram: &mut [u8],
) -> Moved<Step>
    requires { (place < total) × (total ≤ length ram.old) × (i < length input.now) }
    ensures { CodeTaken total place reason input.now i ram.old result ram.new }
{
    let count = copy_up_to(input, i, ram, place as usize, total as usize);
    Moved {
        step: code_step(total, place + (count as u32)),
        reason,
        count,
    }
}

// The XOR of the first bytes of the RAM.
#[tactic(auto, using(crate::proofs::Xors::xors), unfolding(rom_flow::specs::Flow::xor_of))]
pub fn xor_of(ram: &[u8], count: usize) -> u8
    requires { count ≤ length ram.now }
    ensures { result ≡ xor_of (take count ram.now) }
{
    ram[..count].iter().fold(0, |x, &byte| x ^ byte)
}

// What the byte after the XOR does.
pub fn took_ack(reason: u32, byte: u8) -> Progress<Step>
    ensures { EndsIn result (λ kind ram. acked kind reason ram byte) }
{
    if byte == ACK {
        to(Step::Running(RamAddress(RAM_BASE)), reason)
    } else {
        to(Step::SendStx, NOT_ACKED)
    }
}
