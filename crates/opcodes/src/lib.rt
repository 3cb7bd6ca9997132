// The opcodes: a row for each, and what follows from it.
#![tactic(auto)]

ghost use Rattle.std.specs.Prelude.{◌≡◌, true, false};
ghost use Rattle.opcodes.specs.Opcode.{shape, shape_of, opcode_number, opcode_of, has_length, has_answer, data_place};

// The reason where the opcode is unknown.
pub const UNKNOWN_OPCODE: u32 = 11;

// The reason where the opcode doesn't have the length.
pub const BAD_LENGTH: u32 = 12;

#[derive(Clone, Copy, Debug, PartialEq, Eq)]
pub enum Opcode {
    Write,
    Read,
    Copy,
    Erase,
    Run,
    ReadQspi,
    Version,
    ChipErase,
    DirectWrite,
}

const OPCODES: [Opcode; 9] = [
    Opcode::Write,
    Opcode::Read,
    Opcode::Copy,
    Opcode::Erase,
    Opcode::Run,
    Opcode::ReadQspi,
    Opcode::Version,
    Opcode::ChipErase,
    Opcode::DirectWrite,
];

// An opcode's row: its number, how many bytes its payload's numbers take, whether data, of 1 byte or more, follow them, and whether it
// has an answer.
#[derive(Clone, Copy)]
pub struct Shape {
    pub number: u32,
    pub fixed: u32,
    pub has_data: bool,
    pub has_answer: bool,
}

// A row without data and without an answer.
fn bare(number: u32, fixed: u32) -> Shape
    ensures { result ≡ shape number fixed false false }
{
    Shape {
        number,
        fixed,
        has_data: false,
        has_answer: false,
    }
}

fn with_data(number: u32, fixed: u32) -> Shape
    ensures { result ≡ shape number fixed true false }
{
    Shape {
        has_data: true,
        ..bare(number, fixed)
    }
}

fn with_answer(number: u32, fixed: u32) -> Shape
    ensures { result ≡ shape number fixed false true }
{
    Shape {
        has_answer: true,
        ..bare(number, fixed)
    }
}

impl Opcode {
    // An opcode's row.
    pub fn shape(self) -> Shape
        ensures { result ≡ shape_of self }
    {
        match self {
            Opcode::Write => with_data(0x01, 4),
            Opcode::Read => with_answer(0x02, 6),
            Opcode::Copy => bare(0x03, 10),
            Opcode::Erase => bare(0x04, 8),
            Opcode::Run => bare(0x05, 4),
            Opcode::ReadQspi => with_answer(0x08, 6),
            Opcode::Version => with_answer(0x0B, 0),
            Opcode::ChipErase => bare(0x0C, 0),
            Opcode::DirectWrite => with_data(0x12, 5),
        }
    }

    // An opcode's number.
    pub fn number(self) -> u32
        ensures { result ≡ opcode_number self }
    {
        self.shape().number
    }

    // Whether an opcode has payloads of this length.
    pub fn has_length(self, size: usize) -> bool
        ensures { result ≡ has_length self size }
    {
        let shape = self.shape();
        let fixed = shape.fixed as usize;
        if shape.has_data {
            fixed < size
        } else {
            size == fixed
        }
    }

    // Whether an opcode has an answer.
    pub fn has_answer(self) -> bool
        ensures { result ≡ has_answer self }
    {
        self.shape().has_answer
    }

    // Where an opcode's data begin.
    pub fn data_place(self) -> u32
        ensures { result ≡ data_place self }
    {
        self.shape().fixed
    }
}

// The opcode that a number stands for.
pub fn opcode_of(number: u32) -> Option<Opcode>
    ensures { result ≡ opcode_of number }
{
    OPCODES
        .iter()
        .copied()
        .find(|opcode| opcode.number() == number)
}
