// The command that a host is lent: what the host knows from it, and its refusals.
#![tactic(auto)]

ghost use Rattle.std.specs.Prelude.{true, ◌≡◌, ◌≤◌, length};
ghost use Rattle.opcodes.specs.Opcode.{has_length};
ghost use Rattle.host_command.specs.Exchange.{lent, follows_command, awaited_of};
ghost use Rattle.host_command.specs.Refusal.{longest_payload, refusal_number, judged_of};

use command::check::checks_of;
use command::payload::command_of;
use numbers::low_byte;
use opcodes::{Opcode, opcode_of};

// The number where there is no such command, or not with this length.
pub const BAD_COMMAND: u32 = 71;

// The number where the answer buffer is too short.
pub const SHORT_ANSWER: u32 = 72;

// The most that the two length bytes of a header say.
const LONGEST_PAYLOAD: usize = 65_535;

// What comes after a command's execution: an answer of this length, nothing since code runs, or the next greeting.
#[derive(Clone, Copy)]
pub enum Follows {
    Answers(u32),
    Runs,
    Greets,
}

// What a host knows from its command: opcode, length of the payload, what comes after the execution.
#[derive(Clone, Copy)]
pub struct Exchange {
    pub opcode: u8,
    pub size: u32,
    pub follows: Follows,
}

// Why a command is refused.
#[derive(Clone, Copy, Debug, PartialEq, Eq)]
pub enum Refusal {
    BadCommand,
    ShortAnswer,
}

impl From<Refusal> for u32 {
    ghost from_gives = { λ r n. n ≡ refusal_number r };

    fn from(refusal: Refusal) -> u32 {
        match refusal {
            Refusal::BadCommand => BAD_COMMAND,
            Refusal::ShortAnswer => SHORT_ANSWER,
        }
    }
}

impl Follows {
    // How long an answer must be; 0 where none is awaited.
    pub fn awaited(self) -> u32
        ensures { result ≡ awaited_of self }
    {
        match self {
            Follows::Answers(size) => size,
            Follows::Runs | Follows::Greets => 0,
        }
    }
}

fn follows_of(opcode: Opcode, payload: &[u8]) -> Follows
    requires { (has_length opcode (length payload.now) ≡ true) × (length payload.now ≤ longest_payload) }
    ensures { result ≡ follows_command opcode payload.now }
{
    if opcode.has_answer() {
        let command = command_of(opcode, payload.len() as u32, payload);
        Follows::Answers(checks_of(command).answer)
    } else if opcode == Opcode::Run {
        Follows::Runs
    } else {
        Follows::Greets
    }
}

// Judges a command that is lent with a buffer for its answer.
#[tactic(auto, using(crate::proofs::Commands::judgements))]
pub fn judge(number: u32, payload: &[u8], answer: &[u8]) -> Result<Exchange, Refusal>
    ensures { result ≡ judged_of (lent number payload.now answer.now) }
{
    let opcode = opcode_of(number).ok_or(Refusal::BadCommand)?;
    let size = payload.len();
    if !opcode.has_length(size) || LONGEST_PAYLOAD < size {
        return Err(Refusal::BadCommand);
    }
    let follows = follows_of(opcode, payload);
    if answer.len() < (follows.awaited() as usize) {
        return Err(Refusal::ShortAnswer);
    }
    Ok(Exchange {
        opcode: low_byte(number),
        size: size as u32,
        follows,
    })
}
