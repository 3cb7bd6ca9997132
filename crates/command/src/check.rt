// The checks of a command.
ghost use Rattle.std.specs.Prelude.{◌≡◌, length};
ghost use Rattle.wire.specs.Unit.{first_address};
ghost use Rattle.command.specs.Check.{checks, checks_of, first_offset, judged, wrong_end, fault_number, reason_of};

use crate::fault::Fault;
use crate::payload::Command;
use crate::version::VERSION;
use wire::unit::{FlashOffset, RAM_BASE, RamAddress};

// What is tested of a command: its verify byte, its count, its range in RAM, its range in flash, and how long its answer is.
#[derive(Clone, Copy)]
pub struct Checks {
    pub verify: u8,
    pub count: u32,
    pub address: RamAddress,
    pub ram: u32,
    pub offset: FlashOffset,
    pub flash: u32,
    pub answer: u32,
}

impl Checks {
    // A command without a range in a memory has an empty range at the memory's start.
    fn of(count: u32) -> Checks
        ensures { result ≡ checks 0 count first_address 0 first_offset 0 0 }
    {
        Checks {
            verify: 0,
            count,
            address: RamAddress(RAM_BASE),
            ram: 0,
            offset: FlashOffset(0),
            flash: 0,
            answer: 0,
        }
    }

    // As many bytes as are counted, from an address on.
    fn in_ram(self, address: RamAddress) -> Checks
        ensures { result ≡ checks self.verify self.count address self.count self.offset self.flash self.answer }
    {
        Checks {
            address,
            ram: self.count,
            ..self
        }
    }

    // As many bytes as are counted, from an offset on.
    fn in_flash(self, offset: FlashOffset) -> Checks
        ensures { result ≡ checks self.verify self.count self.address self.ram offset self.count self.answer }
    {
        Checks {
            offset,
            flash: self.count,
            ..self
        }
    }

    fn answering(self, answer: u32) -> Checks
        ensures { result ≡ checks self.verify self.count self.address self.ram self.offset self.flash answer }
    {
        Checks { answer, ..self }
    }
}

// What is tested of a command.
pub fn checks_of(command: Command) -> Checks
    ensures { result ≡ checks_of command }
{
    match command {
        Command::Write(address, n) => Checks::of(n).in_ram(address),
        Command::Read(address, n) => Checks::of(n).in_ram(address).answering(n),
        Command::Copy(address, n, offset) => Checks::of(n).in_ram(address).in_flash(offset),
        Command::Erase(offset, n) => Checks::of(n).in_flash(offset),
        Command::Run(address) => Checks::of(1).in_ram(address),
        Command::ReadQspi(offset, n) => Checks::of(n).in_flash(offset).answering(n),
        Command::Version => Checks::of(1).answering(VERSION.len() as u32),
        Command::ChipErase => Checks::of(1),
        Command::DirectWrite(verify, offset, n) => Checks {
            verify,
            ..Checks::of(n).in_flash(offset)
        },
    }
}

// The lengths of the memories.
#[derive(Clone, Copy)]
pub struct Sizes {
    pub ram: usize,
    pub flash: usize,
    pub work: usize,
}

impl Sizes {
    pub fn of(ram: &[u8], flash: &[u8], work: &[u8]) -> Sizes
        ensures { (result.ram ≡ length ram.now) × (result.flash ≡ length flash.now) × (result.work ≡ length work.now) }
    {
        Sizes {
            ram: ram.len(),
            flash: flash.len(),
            work: work.len(),
        }
    }
}

// What is wrong with a range that doesn't lie wholly in its memory, by the place of its first byte.
fn wrong_end(first: Option<usize>) -> Fault
    ensures { fault_number result ≡ wrong_end first }
{
    match first {
        Some(_) => Fault::PastEnd,
        None => Fault::OutsideMemory,
    }
}

// The first test that fails.
#[tactic(auto, using(crate::proofs::Judged::judgements))]
fn judge(c: Checks, sizes: Sizes) -> Result<(), Fault>
    ensures { reason_of result ≡ judged sizes.ram sizes.flash sizes.work c }
{
    if 1 < c.verify {
        return Err(Fault::BadVerify);
    }
    if c.count == 0 {
        return Err(Fault::EmptyRange);
    }
    c.address
        .place(c.ram as usize, sizes.ram)
        .ok_or_else(|| wrong_end(c.address.place(1, sizes.ram)))?;
    c.offset
        .place(c.flash as usize, sizes.flash)
        .ok_or_else(|| wrong_end(c.offset.place(1, sizes.flash)))?;
    if sizes.work < (c.answer as usize) {
        return Err(Fault::LongAnswer);
    }
    Ok(())
}

// What is wrong with a command, in memories of these lengths.
pub fn check(command: Command, sizes: Sizes) -> Result<(), Fault>
    ensures { reason_of result ≡ judged sizes.ram sizes.flash sizes.work (checks_of command) }
{
    judge(checks_of(command), sizes)
}
