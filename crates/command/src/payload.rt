// What a payload says.
ghost use Rattle.std.specs.Prelude.{◌≡◌, ◌+◌, ◌≤◌, length};
ghost use Rattle.command.specs.Payload.{address_at, offset_at, command_of, Carried};

use numbers::number_at;
use opcodes::Opcode;
use wire::unit::{FlashOffset, RamAddress};

// A command with its numbers. For Write and Direct write the last one counts the data, which are in the work buffer after the payload's
// numbers.
#[derive(Clone, Copy)]
pub enum Command {
    Write(RamAddress, u32),
    Read(RamAddress, u32),
    Copy(RamAddress, u32, FlashOffset),
    Erase(FlashOffset, u32),
    Run(RamAddress),
    ReadQspi(FlashOffset, u32),
    Version,
    ChipErase,
    // Its first number is the verify byte.
    DirectWrite(u8, FlashOffset, u32),
}

fn address_at(work: &[u8], place: usize) -> RamAddress
    requires { place + 4 ≤ length work.now }
    ensures { result ≡ address_at place work.now }
{
    RamAddress(number_at::<4>(work, place))
}

fn offset_at(work: &[u8], place: usize) -> FlashOffset
    requires { place + 4 ≤ length work.now }
    ensures { result ≡ offset_at place work.now }
{
    FlashOffset(number_at::<4>(work, place))
}

// The command that a payload of `count` bytes at the front of the work buffer says.
#[tactic(auto, using(crate::proofs::Carrieds::long_enough))]
pub fn command_of(opcode: Opcode, count: u32, work: &[u8]) -> Command
    requires { Carried opcode count (length work.now) }
    ensures { result ≡ command_of opcode count work.now }
{
    match opcode {
        Opcode::Write => Command::Write(address_at(work, 0), count - opcode.data_place()),
        Opcode::Read => Command::Read(address_at(work, 0), number_at::<2>(work, 4)),
        Opcode::Copy => Command::Copy(
            address_at(work, 0),
            number_at::<2>(work, 4),
            offset_at(work, 6),
        ),
        Opcode::Erase => Command::Erase(offset_at(work, 0), number_at::<4>(work, 4)),
        Opcode::Run => Command::Run(address_at(work, 0)),
        Opcode::ReadQspi => Command::ReadQspi(offset_at(work, 0), number_at::<2>(work, 4)),
        Opcode::Version => Command::Version,
        Opcode::ChipErase => Command::ChipErase,
        Opcode::DirectWrite => {
            Command::DirectWrite(work[0], offset_at(work, 1), count - opcode.data_place())
        }
    }
}
