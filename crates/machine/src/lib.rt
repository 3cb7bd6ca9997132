// Sessions as deterministic machines: what a caller keeps of one between calls, and what a call reports.
#![tactic(auto)]

ghost use Rattle.std.specs.Prelude.{◌≡◌};
ghost use Rattle.machine.specs.Session.{start_record, refused_report};
ghost use Rattle.machine.specs.Told.{told};

use crate::stop::Standing;

pub mod ask;
pub mod refusal;
pub mod step;
pub mod stop;
pub mod word;
pub mod words;

// What the caller keeps of a session between calls. An accepted call hands out 0 for the numbers that a phase does not use.
#[derive(Clone, Copy)]
pub struct Record {
    pub kind: u32,
    pub phase: u32,
    pub opcode: u32,
    pub length: u32,
    pub place: u32,
    pub held: u32,
    pub reason: u32,
    pub spare: u32,
}

// What an accepted call did, and the record for the next one.
#[derive(Clone, Copy)]
pub struct Accepted {
    pub standing: Standing,
    pub taken: usize,
    pub sent: usize,
    pub session: Record,
}

// What a call says: the number 0 and what it did, or a refusal's number, zeros and the record as it was given. Its number and its standing
// are numbers, since C takes them, and since `called` hands back every report, whatever its numbers are.
#[derive(Clone, Copy)]
pub struct Report {
    pub number: u32,
    pub standing: u32,
    pub taken: usize,
    pub sent: usize,
    pub session: Record,
}

impl Report {
    // The report of a call that was given a record, its refusal told by its number.
    pub fn of(session: Record, outcome: Result<Accepted, u32>) -> Report
        ensures { result ≡ told (λ number. number) session outcome }
    {
        match outcome {
            Ok(done) => Report {
                number: 0,
                standing: done.standing.into(),
                taken: done.taken,
                sent: done.sent,
                session: done.session,
            },
            Err(number) => refused(number, session),
        }
    }
}

// The report of a refused call.
pub fn refused(number: u32, session: Record) -> Report
    ensures { result ≡ refused_report number session }
{
    Report {
        number,
        standing: 0,
        taken: 0,
        sent: 0,
        session,
    }
}

// The record of a session at its flow's first step, by the number of its kind.
pub fn start(kind: u32) -> Record
    ensures { result ≡ start_record kind }
{
    Record {
        kind,
        phase: 0,
        opcode: 0,
        length: 0,
        place: 0,
        held: 0,
        reason: 0,
        spare: 0,
    }
}
