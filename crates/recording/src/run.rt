// The way through a file along the bytes of one kind.
ghost use Rattle.std.specs.Prelude.{◌≤◌, length, drop};
ghost use Rattle.recording.specs.Left.{left_from, left_in, Readable, IsRun, Leaves, LiesIn, StaysIn};

use crate::form::{ENTRY_HEAD, size_in};

// An entry's bytes, or what is left of them, and the entries after it. It has no bytes only where no entries are after it.
#[derive(Clone, Copy)]
pub struct Run<'a> {
    pub kind: u8,
    pub bytes: &'a [u8],
    pub after: &'a [u8],
}

impl<'a> Run<'a> {
    // The bytes of the first entry of a kind that has any; where there is none, no bytes and no entries.
    pub fn first(kind: u8, entries: &'a [u8]) -> Run<'a>
        requires { Readable entries.now }
        ensures leaves { Leaves kind (left_from kind entries.now) result }
        ensures lies { LiesIn entries.entry 0 result }
    {
        let mut run = Run {
            kind,
            bytes: &entries[..0],
            after: entries,
        };
        while run.bytes.is_empty() && !run.after.is_empty() {
            let rest = run.after;
            let past = ENTRY_HEAD + size_in(rest);
            let own = if rest[0] == kind { ENTRY_HEAD } else { past };
            run.bytes = &rest[own..past];
            run.after = &rest[past..];
        }
        run
    }

    // What is left past the first `count` bytes; where that is none, the next bytes of the kind.
    #[tactic(auto, using(crate::proofs::Parts::stays))]
    pub fn past(self, count: usize) -> Run<'a>
        requires run { IsRun self }
        requires count_bound { count ≤ length self.bytes.now }
        ensures leaves { Leaves self.entry.kind (drop count (left_in self.entry)) result }
        ensures lies { StaysIn count self.entry result }
    {
        let bytes = &self.bytes[count..];
        if bytes.is_empty() {
            return Run::first(self.kind, self.after);
        }
        Run { bytes, ..self }
    }
}
