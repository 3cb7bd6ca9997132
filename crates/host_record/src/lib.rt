// The host's record: a step in numbers, and back.
#![tactic(auto)]

ghost use Rattle.std.specs.Prelude.{◌≡◌};
ghost use Rattle.host_record.specs.Record.{numbers_of, written, step_of, only_first, places_behind, places_of, decoded_of};

use host_command::{Exchange, Follows};
use host_flow::ask::{GREETING_BYTES, HEADER_BYTES};
use host_flow::kind::Host;
use host_flow::step::Step;
use machine::Record;

// A step in numbers. `held` is the low byte of a CRC or a length.
#[derive(Clone, Copy)]
pub struct Numbers {
    pub phase: u32,
    pub place: u32,
    pub held: u32,
}

fn fields(phase: u32, place: u32, held: u32) -> Numbers
    ensures { result ≡ record { phase = phase; place = place; held = held } }
{
    Numbers { phase, place, held }
}

fn numbers_of(step: Step) -> Numbers
    ensures { result ≡ numbers_of step }
{
    match step {
        Step::TakeGreeting(place) => fields(0, place, 0),
        Step::SendHeader(place) => fields(1, place, 0),
        Step::TakeHeaderAck => fields(2, 0, 0),
        Step::SendPayload(place) => fields(3, place, 0),
        Step::TakePayloadAck => fields(4, 0, 0),
        Step::TakeCrcLow => fields(5, 0, 0),
        Step::TakeCrcHigh(low) => fields(6, 0, low),
        Step::SendGo => fields(7, 0, 0),
        Step::SendNak => fields(8, 0, 0),
        Step::TakeLengthLow => fields(9, 0, 0),
        Step::TakeLengthHigh(low) => fields(10, 0, low),
        Step::SendAnswerGo => fields(11, 0, 0),
        Step::TakeAnswer(place) => fields(12, place, 0),
        Step::SendCrcLow => fields(13, 0, 0),
        Step::SendCrcHigh => fields(14, 0, 0),
        Step::TakeLastAck => fields(15, 0, 0),
        Step::Look => fields(16, 0, 0),
        Step::Over => fields(17, 0, 0),
    }
}

// The record of a step.
pub fn encode(step: Step, reason: u32) -> Record
    ensures { result ≡ written step reason }
{
    let numbers = numbers_of(step);
    Record {
        kind: Host::KIND,
        phase: numbers.phase,
        opcode: 0,
        length: 0,
        place: numbers.place,
        held: numbers.held,
        reason,
        spare: 0,
    }
}

// The step of a phase.
fn step_of(numbers: Numbers) -> Step
    ensures { result ≡ step_of numbers }
{
    let phase = numbers.phase;
    match phase {
        0 => Step::TakeGreeting(numbers.place),
        1 => Step::SendHeader(numbers.place),
        2 => Step::TakeHeaderAck,
        3 => Step::SendPayload(numbers.place),
        4 => Step::TakePayloadAck,
        5 => Step::TakeCrcLow,
        6 => Step::TakeCrcHigh(numbers.held),
        7 => Step::SendGo,
        8 => Step::SendNak,
        9 => Step::TakeLengthLow,
        10 => Step::TakeLengthHigh(numbers.held),
        11 => Step::SendAnswerGo,
        12 => Step::TakeAnswer(numbers.place),
        13 => Step::SendCrcLow,
        14 => Step::SendCrcHigh,
        15 => Step::TakeLastAck,
        16 => Step::Look,
        _ => Step::Over,
    }
}

// Only place 0, where there are bytes at all.
fn only_first(size: u32) -> u32
    ensures { result ≡ only_first size }
{
    if size == 0 { 0 } else { 1 }
}

// How many places a phase of an answer has.
fn places_in_answer(size: u32, phase: u32) -> u32
    ensures { result ≡ places_behind (Follows.Answers size) phase }
{
    if phase < 11 {
        return 1;
    }
    if phase == 12 {
        return size;
    }
    if phase < 16 {
        return only_first(size);
    }
    0
}

// How many places a phase after the execution has.
fn places_behind(follows: Follows, phase: u32) -> u32
    ensures { result ≡ places_behind follows phase }
{
    match follows {
        Follows::Answers(size) => places_in_answer(size, phase),
        Follows::Runs => 0,
        Follows::Greets => { if phase == 16 { 1 } else { 0 } }
    }
}

// How many places a phase has for a command.
fn places_of(x: Exchange, phase: u32) -> u32
    ensures { result ≡ places_of x phase }
{
    if phase == 0 {
        return GREETING_BYTES;
    }
    if phase == 1 {
        return HEADER_BYTES;
    }
    if phase == 2 {
        return 1;
    }
    if phase == 3 {
        return x.size;
    }
    if phase < 9 {
        return only_first(x.size);
    }
    if phase < 17 {
        let follows = x.follows;
        return places_behind(follows, phase);
    }
    if phase == 17 {
        return 1;
    }
    0
}

// What a record stands for, with this command.
#[tactic(auto, unfolding(crate::specs::Record::decoded_of))]
pub fn decode(x: Exchange, session: Record) -> Option<Step>
    ensures { result ≡ decoded_of x session }
{
    if session.kind != Host::KIND {
        return None;
    }
    let n = fields(session.phase, session.place, session.held);
    (n.place < places_of(x, n.phase)).then_some(step_of(n))
}
