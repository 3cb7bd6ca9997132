// The record of a uartboot session: a step in numbers, and back.
#![tactic(auto)]

ghost use Rattle.std.specs.Prelude.{◌≡◌};
ghost use Rattle.uartboot_record.specs.Record.{fields, header_numbers, command_numbers, answer_numbers, numbers_of, written, places_of, plain_step, payload_step, command_in, answer_step, answer_in, running_in, phase_in, decoded_of};

use machine::Record;
use opcodes::{Opcode, opcode_of};
use uartboot_flow::kind::Uartboot;
use uartboot_flow::step::{AnswerStep, CommandStep, HeaderStep, Step};
use wire::unit::RamAddress;

// A step in numbers. `held` is a low byte, or the address at which code runs.
#[derive(Clone, Copy)]
pub struct Numbers {
    pub phase: u32,
    pub opcode: u32,
    pub length: u32,
    pub place: u32,
    pub held: u32,
}

fn fields(phase: u32, opcode: u32, size: u32, place: u32, held: u32) -> Numbers
    ensures { result ≡ fields phase opcode size place held }
{
    Numbers {
        phase,
        opcode,
        length: size,
        place,
        held,
    }
}

fn header_numbers(step: HeaderStep) -> Numbers
    ensures { result ≡ header_numbers step }
{
    match step {
        HeaderStep::TakeSoh => fields(1, 0, 0, 0, 0),
        HeaderStep::TakeOpcode => fields(2, 0, 0, 0, 0),
        HeaderStep::TakeLow(opcode) => fields(3, opcode, 0, 0, 0),
        HeaderStep::TakeHigh(opcode, low) => fields(4, opcode, 0, 0, low),
    }
}

fn command_numbers(opcode: u32, size: u32, step: CommandStep) -> Numbers
    ensures { result ≡ command_numbers opcode size step }
{
    match step {
        CommandStep::SendAck => fields(5, opcode, size, 0, 0),
        CommandStep::TakePayload(place) => fields(6, opcode, size, place, 0),
        CommandStep::SendPayloadAck => fields(7, opcode, size, 0, 0),
        CommandStep::SendCrcLow => fields(8, opcode, size, 0, 0),
        CommandStep::SendCrcHigh => fields(9, opcode, size, 0, 0),
        CommandStep::TakeGo => fields(10, opcode, size, 0, 0),
    }
}

fn answer_numbers(opcode: u32, size: u32, step: AnswerStep) -> Numbers
    ensures { result ≡ answer_numbers opcode size step }
{
    match step {
        AnswerStep::SendLengthLow => fields(11, opcode, size, 0, 0),
        AnswerStep::SendLengthHigh => fields(12, opcode, size, 0, 0),
        AnswerStep::TakeGo => fields(13, opcode, size, 0, 0),
        AnswerStep::SendAnswer(place) => fields(14, opcode, size, place, 0),
        AnswerStep::TakeCrcLow => fields(15, opcode, size, 0, 0),
        AnswerStep::TakeCrcHigh(low) => fields(16, opcode, size, 0, low),
        AnswerStep::SendAck => fields(17, opcode, size, 0, 0),
    }
}

fn numbers_of(step: Step) -> Numbers
    ensures { result ≡ numbers_of step }
{
    match step {
        Step::Greeting(place) => fields(0, 0, 0, place, 0),
        Step::Header(inner) => header_numbers(inner),
        Step::Command(opcode, size, inner) => command_numbers(opcode.number(), size, inner),
        Step::Answer(opcode, size, inner) => answer_numbers(opcode.number(), size, inner),
        Step::Refusal => fields(18, 0, 0, 0, 0),
        Step::Running(address) => fields(19, Opcode::Run.number(), 0, 0, address.0),
    }
}

// The record of a step.
pub fn encode(step: Step, reason: u32) -> Record
    ensures { result ≡ written step reason }
{
    let n = numbers_of(step);
    Record {
        kind: Uartboot::KIND,
        phase: n.phase,
        opcode: n.opcode,
        length: n.length,
        place: n.place,
        held: n.held,
        reason,
        spare: 0,
    }
}

// How many places a phase has.
fn places_of(phase: u32, size: u32) -> u32
    ensures { result ≡ places_of phase size }
{
    match phase {
        0 => Uartboot::GREETING_LENGTH,
        6 => size,
        14 => size,
        _ => 1,
    }
}

// The greeting and the header; any other phase is the header's last one.
fn plain_step(n: Numbers) -> Step
    ensures { result ≡ plain_step n }
{
    let phase = n.phase;
    match phase {
        0 => Step::Greeting(n.place),
        1 => Step::Header(HeaderStep::TakeSoh),
        2 => Step::Header(HeaderStep::TakeOpcode),
        3 => Step::Header(HeaderStep::TakeLow(n.opcode)),
        _ => Step::Header(HeaderStep::TakeHigh(n.opcode, n.held)),
    }
}

// The steps from a payload's first byte on; any other phase is the last of them.
fn payload_step(phase: u32, place: u32) -> CommandStep
    ensures { result ≡ payload_step phase place }
{
    match phase {
        6 => CommandStep::TakePayload(place),
        7 => CommandStep::SendPayloadAck,
        8 => CommandStep::SendCrcLow,
        9 => CommandStep::SendCrcHigh,
        _ => CommandStep::TakeGo,
    }
}

// A command: its opcode has the length, the length is within the work buffer, and without payload there is only the header's 06.
fn command_in(work: usize, opcode: Opcode, n: Numbers) -> Option<Step>
    ensures { result ≡ command_in work opcode n }
{
    let size = n.length;
    if !opcode.has_length(size as usize) {
        return None;
    }
    if work < (size as usize) {
        return None;
    }
    if n.phase == 5 {
        return Some(Step::Command(opcode, size, CommandStep::SendAck));
    }
    if size == 0 {
        return None;
    }
    Some(Step::Command(opcode, size, payload_step(n.phase, n.place)))
}

// The steps of an answer; any other phase is the last of them.
fn answer_step(phase: u32, place: u32, held: u32) -> AnswerStep
    ensures { result ≡ answer_step phase place held }
{
    match phase {
        11 => AnswerStep::SendLengthLow,
        12 => AnswerStep::SendLengthHigh,
        13 => AnswerStep::TakeGo,
        14 => AnswerStep::SendAnswer(place),
        15 => AnswerStep::TakeCrcLow,
        16 => AnswerStep::TakeCrcHigh(held),
        _ => AnswerStep::SendAck,
    }
}

// An answer: its opcode has one, of 1 byte or more, within the work buffer.
fn answer_in(work: usize, opcode: Opcode, n: Numbers) -> Option<Step>
    ensures { result ≡ answer_in work opcode n }
{
    if !opcode.has_answer() {
        return None;
    }
    if n.length == 0 {
        return None;
    }
    if work < (n.length as usize) {
        return None;
    }
    Some(Step::Answer(opcode, n.length, answer_step(n.phase, n.place, n.held)))
}

// Code runs at an address in RAM, started by the command Run.
fn running_in(ram: usize, opcode: u32, address: u32) -> Option<Step>
    ensures { result ≡ running_in ram opcode address }
{
    if opcode != Opcode::Run.number() {
        return None;
    }
    let address = RamAddress(address);
    address.is_in(ram).then_some(Step::Running(address))
}

// The step of a phase, whatever the place.
#[tactic(auto, unfolding(crate::specs::Record::phase_in))]
fn phase_in(ram: usize, work: usize, n: Numbers) -> Option<Step>
    ensures { result ≡ phase_in ram work n }
{
    if n.phase < 5 {
        return Some(plain_step(n));
    }
    if n.phase == 18 {
        return Some(Step::Refusal);
    }
    if n.phase == 19 {
        return running_in(ram, n.opcode, n.held);
    }
    if 17 < n.phase {
        return None;
    }
    let opcode = opcode_of(n.opcode)?;
    if n.phase < 11 {
        return command_in(work, opcode, n);
    }
    answer_in(work, opcode, n)
}

// The step that a record stands for, with memories of these lengths.
#[tactic(auto, unfolding(crate::specs::Record::decoded_of, crate::specs::Record::step_in))]
pub fn decode(ram: usize, work: usize, session: Record) -> Option<Step>
    ensures { result ≡ decoded_of ram work session }
{
    if session.kind != Uartboot::KIND {
        return None;
    }
    let n = fields(
        session.phase,
        session.opcode,
        session.length,
        session.place,
        session.held,
    );
    if n.place < places_of(n.phase, n.length) {
        phase_in(ram, work, n)
    } else {
        None
    }
}
