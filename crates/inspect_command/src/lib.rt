// What a command's payload says.
#![tactic(auto)]

ghost use Rattle.std.specs.Prelude.{◌≡◌};
ghost use Rattle.inspect_command.specs.Command.{refused, says, numbers_of, refusal_number, told, read_command};

use command::payload::{Command, command_of};
use opcodes::{BAD_LENGTH, UNKNOWN_OPCODE, opcode_of};

// The longest payload whose length two bytes can say.
const LONGEST: usize = 65_535;

// The number 0 and the command's numbers, 0 where it has none; or a refusal's number and zeros, as C takes it.
#[repr(C)]
#[derive(Clone, Copy)]
pub struct CommandRead {
    pub number: u32,
    pub address: u32,
    pub offset: u32,
    pub count: u32,
    pub verify: u32,
}

// Why a payload says no command.
#[derive(Clone, Copy, Debug, PartialEq, Eq)]
enum Refusal {
    UnknownOpcode,
    BadLength,
}

impl From<Refusal> for u32 {
    ghost from_gives = { λ r n. n ≡ refusal_number r };

    fn from(refusal: Refusal) -> u32 {
        match refusal {
            Refusal::UnknownOpcode => UNKNOWN_OPCODE,
            Refusal::BadLength => BAD_LENGTH,
        }
    }
}

impl From<Refusal> for CommandRead {
    ghost from_gives = { λ r read. read ≡ refused (refusal_number r) };

    fn from(refusal: Refusal) -> CommandRead {
        CommandRead {
            number: u32::from(refusal),
            address: 0,
            offset: 0,
            count: 0,
            verify: 0,
        }
    }
}

fn says(address: u32, offset: u32, count: u32, verify: u8) -> CommandRead
    ensures { result ≡ says address offset count verify }
{
    CommandRead {
        number: 0,
        address,
        offset,
        count,
        verify: verify as u32,
    }
}

impl From<Command> for CommandRead {
    ghost from_gives = { λ command read. read ≡ numbers_of command };

    fn from(command: Command) -> CommandRead {
        match command {
            Command::Write(address, n) => says(address.0, 0, n, 0),
            Command::Read(address, n) => says(address.0, 0, n, 0),
            Command::Copy(address, n, offset) => says(address.0, offset.0, n, 0),
            Command::Erase(offset, n) => says(0, offset.0, n, 0),
            Command::Run(address) => says(address.0, 0, 0, 0),
            Command::ReadQspi(offset, n) => says(0, offset.0, n, 0),
            Command::Version => says(0, 0, 0, 0),
            Command::ChipErase => says(0, 0, 0, 0),
            Command::DirectWrite(verify, offset, n) => says(0, offset.0, n, verify),
        }
    }
}

// The command that a payload says to an opcode's number.
#[tactic(auto, unfolding(crate::specs::Command::read_command))]
fn command_in(opcode: u32, payload: &[u8]) -> Result<Command, Refusal>
    ensures { told result ≡ read_command opcode payload.now }
{
    let known = opcode_of(opcode).ok_or(Refusal::UnknownOpcode)?;
    if LONGEST < payload.len() || !known.has_length(payload.len()) {
        return Err(Refusal::BadLength);
    }
    Ok(command_of(known, payload.len() as u32, payload))
}

// The command of an opcode's number and a payload.
pub fn read_command(opcode: u32, payload: &[u8]) -> CommandRead
    ensures { result ≡ read_command opcode payload.now }
{
    match command_in(opcode, payload) {
        Ok(command) => CommandRead::from(command),
        Err(refusal) => CommandRead::from(refusal),
    }
}
