// What C gets of a session call: the report by value, the record in eight words.
#![tactic(auto)]

ghost use Rattle.std.specs.Prelude.{◌≡◌};
ghost use Rattle.called.specs.Called.{called_of, words_after};

use machine::Report;

// A session call's report without its record, which C has in its eight words. Numbers and not a Result, since C takes them.
#[repr(C)]
#[derive(Clone, Copy)]
pub struct Called {
    pub number: u32,
    pub standing: u32,
    pub taken: usize,
    pub sent: usize,
}

// A call's report for C, its record into the words. A refused call, which has a number, doesn't write them.
pub fn hand_back(report: Report, words: &mut [u32; 8]) -> Called
    ensures value { result ≡ called_of report }
    ensures words_after { words.new ≡ words_after report words.old }
{
    if report.number == 0 {
        *words = report.session.into();
    }
    Called {
        number: report.number,
        standing: report.standing,
        taken: report.taken,
        sent: report.sent,
    }
}
