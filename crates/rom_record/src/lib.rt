// The receiver's record: a step in numbers, and back.
#![tactic(auto)]

ghost use Rattle.std.specs.Prelude.{◌≡◌};
ghost use Rattle.rom_record.specs.Record.{header_fields, fields_of, written, sized, extended, running_in, places_of, phase_in, step_in, decoded_of};

use machine::Record;
use rom_flow::kind::Kind;
use rom_flow::step::{HeaderStep, Step};
use wire::unit::RamAddress;

// A step in numbers. `held` is the low byte of a length, or the address at which code runs.
#[derive(Clone, Copy)]
pub struct Numbers {
    pub phase: u32,
    pub length: u32,
    pub place: u32,
    pub held: u32,
}

fn fields(phase: u32, total: u32, place: u32, held: u32) -> Numbers
    ensures { result ≡ record { phase = phase; length = total; place = place; held = held } }
{
    Numbers {
        phase,
        length: total,
        place,
        held,
    }
}

fn header_fields(step: HeaderStep) -> Numbers
    ensures { result ≡ header_fields step }
{
    match step {
        HeaderStep::TakeSoh => fields(1, 0, 0, 0),
        HeaderStep::TakeLow => fields(2, 0, 0, 0),
        HeaderStep::TakeHigh(low) => fields(3, 0, 0, low),
        HeaderStep::TakeExtendedLow => fields(4, 0, 0, 0),
        HeaderStep::TakeExtendedHigh(low) => fields(5, 0, 0, low),
    }
}

fn fields_of(step: Step) -> Numbers
    ensures { result ≡ fields_of step }
{
    match step {
        Step::SendStx => fields(0, 0, 0, 0),
        Step::Header(inner) => header_fields(inner),
        Step::SendAck(total) => fields(6, total, 0, 0),
        Step::TakeCode(total, place) => fields(7, total, place, 0),
        Step::SendXor(total) => fields(8, total, 0, 0),
        Step::TakeAck(total) => fields(9, total, 0, 0),
        Step::SendNak => fields(10, 0, 0, 0),
        Step::Running(address) => fields(11, 0, 0, address.0),
    }
}

// The record of a step.
pub fn encode(kind: Kind, step: Step, reason: u32) -> Record
    ensures { result ≡ written kind step reason }
{
    let numbers = fields_of(step);
    Record {
        kind: kind.into(),
        phase: numbers.phase,
        opcode: 0,
        length: numbers.length,
        place: numbers.place,
        held: numbers.held,
        reason,
        spare: 0,
    }
}

// A step whose code has 1 byte or more, and no more than the RAM.
fn sized(size: u32, total: u32, step: Step) -> Option<Step>
    ensures { result ≡ sized size total step }
{
    if total == 0 {
        return None;
    }
    (total <= size).then_some(step)
}

// Code runs at an address in RAM.
fn running_in(size: u32, address: u32) -> Option<Step>
    ensures { result ≡ running_in size address }
{
    let address = RamAddress(address);
    address
        .is_in(size as usize)
        .then_some(Step::Running(address))
}

// A step that only kind E has.
fn extended(kind: Kind, step: Step) -> Option<Step>
    ensures { result ≡ extended kind step }
{
    match kind {
        Kind::P => None,
        Kind::E => Some(step),
    }
}

// How many places a phase has.
fn places_of(phase: u32, total: u32) -> u32
    ensures { result ≡ places_of phase total }
{
    if phase == 7 { total } else { 1 }
}

// The step of a phase, whatever the place.
fn phase_in(kind: Kind, size: u32, numbers: Numbers) -> Option<Step>
    ensures { result ≡ phase_in kind size numbers }
{
    let phase = numbers.phase;
    let total = numbers.length;
    match phase {
        0 => Some(Step::SendStx),
        1 => Some(Step::Header(HeaderStep::TakeSoh)),
        2 => Some(Step::Header(HeaderStep::TakeLow)),
        3 => Some(Step::Header(HeaderStep::TakeHigh(numbers.held))),
        4 => extended(kind, Step::Header(HeaderStep::TakeExtendedLow)),
        5 => extended(
            kind,
            Step::Header(HeaderStep::TakeExtendedHigh(numbers.held)),
        ),
        6 => sized(size, total, Step::SendAck(total)),
        7 => sized(size, total, Step::TakeCode(total, numbers.place)),
        8 => sized(size, total, Step::SendXor(total)),
        9 => sized(size, total, Step::TakeAck(total)),
        10 => Some(Step::SendNak),
        11 => running_in(size, numbers.held),
        _ => None,
    }
}

fn step_in(kind: Kind, size: u32, numbers: Numbers) -> Option<Step>
    ensures { result ≡ step_in kind size numbers }
{
    if numbers.place < places_of(numbers.phase, numbers.length) {
        phase_in(kind, size, numbers)
    } else {
        None
    }
}

// What a record stands for, with a RAM of `size` bytes.
#[tactic(auto, unfolding(crate::specs::Record::decoded_of))]
pub fn decode(size: u32, session: Record) -> Option<(Kind, Step)>
    ensures { result ≡ decoded_of size session }
{
    let Ok(kind) = Kind::try_from(session.kind) else {
        return None;
    };
    let numbers = fields(session.phase, session.length, session.place, session.held);
    let step = step_in(kind, size, numbers)?;
    Some((kind, step))
}
