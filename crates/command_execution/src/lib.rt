// What each of uartboot's commands does to the memories, and how it ends.
#![tactic(auto)]

ghost use Rattle.std.specs.Prelude.{◌≡◌, ◌+◌, ◌-◌, ◌≤◌, length};
ghost use Rattle.memory.specs.Store.{laid, changed_from, part_of};
ghost use Rattle.memory.specs.Flash.{burnt};
ghost use Rattle.wire.specs.Unit.{ram_base};
ghost use Rattle.command.specs.Payload.{Carried};
ghost use Rattle.memory.specs.Memories.{memories, Fitting};
ghost use Rattle.command_execution.specs.Execution.{ended, verified, performed, executed, Allowed};

use command::check::{Sizes, check};
use command::payload::{Command, command_of};
use command::version::VERSION;
use memory::compare::is_front;
use memory::flash::{burn, erase, wipe};
use memory::store::lay;
use opcodes::Opcode;
use wire::unit::{FlashOffset, RAM_BASE, RamAddress};

// The reason where flash differs from the command's data.
pub const VERIFY_DIFFERS: u32 = 18;

// How a command ends: without an answer, with an answer of n bytes at the front of the work buffer, with code running at an
// address, or with a reason, as a number, since the definition `executed` has that number.
#[derive(Clone, Copy)]
pub enum Ending {
    Silent,
    Answers(u32),
    Runs(RamAddress),
    Failed(u32),
}

// The index in RAM of an address that is not below its first.
fn index_of(address: RamAddress) -> usize
    requires { ram_base ≤ address.0 }
    ensures { result ≡ address.0 - ram_base }
{
    (address.0 - RAM_BASE) as usize
}

// Stores RAM bytes in flash, from an address to an offset.
fn copy(from: RamAddress, count: u32, to: FlashOffset, ram: &[u8], flash: &mut [u8])
    requires { (ram_base ≤ from.0) × (from.0 - ram_base + count ≤ length ram.now) × (to.0 + count ≤ length flash.old) }
    ensures { flash.new ≡ changed_from to.0 (burnt (part_of (from.0 - ram_base) count ram.now)) flash.old }
{
    let start = index_of(from);
    let end = start + (count as usize);
    let offset = to.0 as usize;
    burn(&mut flash[offset..], &ram[start..end]);
}

// Answers with bytes of a memory, or of a text, laid at the front of the work buffer.
fn answer(from: &[u8], place: usize, count: u32, work: &mut [u8]) -> Ending
    requires { (place + count ≤ length from.now) × (count ≤ length work.old) }
    ensures { (result ≡ Ending.Answers count) × (work.new ≡ laid (part_of place count from.now) work.old) }
{
    let end = place + (count as usize);
    lay(work, &from[place..end]);
    Ending::Answers(count)
}

// Stores bytes in flash, and compares them where verify is 1.
fn direct_write(verify: u8, offset: usize, bytes: &[u8], flash: &mut [u8]) -> Ending
    requires { offset + length bytes.now ≤ length flash.old }
    ensures { (result ≡ verified verify offset bytes.now flash.new) × (flash.new ≡ changed_from offset (burnt bytes.now) flash.old) }
{
    burn(&mut flash[offset..], bytes);
    if verify == 1 && !is_front(bytes, &flash[offset..]) {
        return Ending::Failed(VERIFY_DIFFERS);
    }
    Ending::Silent
}

// Does what a command says, its checks passed.
#[tactic(auto, using(crate::proofs::Ready::readiness))]
fn perform(command: Command, ram: &mut [u8], flash: &mut [u8], work: &mut [u8]) -> Ending
    requires { Allowed command (length ram.old) (length flash.old) (length work.old) }
    ensures { ended result (memories ram.new flash.new work.new) ≡ performed command (memories ram.old flash.old work.old) }
{
    match command {
        Command::Write(address, n) => {
            let start = index_of(address);
            let from = Opcode::Write.data_place() as usize;
            let end = from + (n as usize);
            lay(&mut ram[start..], &work[from..end]);
            Ending::Silent
        }
        Command::Read(address, n) => answer(ram, index_of(address), n, work),
        Command::Copy(address, n, offset) => {
            copy(address, n, offset, ram, flash);
            Ending::Silent
        }
        Command::Erase(offset, n) => {
            erase(flash, offset.0 as usize, n as usize);
            Ending::Silent
        }
        Command::Run(address) => Ending::Runs(address),
        Command::ReadQspi(offset, n) => answer(flash, offset.0 as usize, n, work),
        Command::Version => answer(&VERSION, 0, VERSION.len() as u32, work),
        Command::ChipErase => {
            wipe(flash);
            Ending::Silent
        }
        Command::DirectWrite(verify, offset, n) => {
            let from = Opcode::DirectWrite.data_place() as usize;
            let end = from + (n as usize);
            direct_write(verify, offset.0 as usize, &work[from..end], flash)
        }
    }
}

// Executes the command that the payload at the front of the work buffer says: its checks are made again, and where one fails nothing
// changes.
#[tactic(auto, using(crate::proofs::Executions::executions))]
pub fn execute(
    opcode: Opcode,
    count: u32,
    ram: &mut [u8],
    flash: &mut [u8],
    work: &mut [u8],
) -> Ending
    requires carried { Carried opcode count (length work.old) }
    requires fitting { Fitting (length ram.old) (length flash.old) (length work.old) }
    ensures { ended result (memories ram.new flash.new work.new) ≡ executed opcode count (memories ram.old flash.old work.old) }
{
    let command = command_of(opcode, count, work);
    match check(command, Sizes::of(ram, flash, work)) {
        Ok(()) => perform(command, ram, flash, work),
        Err(fault) => Ending::Failed(u32::from(fault)),
    }
}
