// The loop over a session's actions: how far a call has come, where it stops, and what it then tells.
ghost use Rattle.std.specs.Prelude.{◌≡◌, ◌+◌, ◌≤◌};
ghost use Rattle.machine.specs.Stop.{standing_number, accepted_at};

use crate::step::Moved;
use crate::{Accepted, Record};

// Why a call stops: an action needs a byte, or room, or no action is left.
#[derive(Clone, Copy, Debug, PartialEq, Eq)]
pub enum Standing {
    NeedsByte,
    NeedsRoom,
    Ended,
}

// A standing's number in a report.
impl From<Standing> for u32 {
    ghost from_gives = { λ standing number. number ≡ standing_number standing };

    fn from(standing: Standing) -> u32 {
        match standing {
            Standing::NeedsByte => 1,
            Standing::NeedsRoom => 2,
            Standing::Ended => 3,
        }
    }
}

// How far a call has come: its next step with the last reason, and how many bytes it took and sent.
#[derive(Clone, Copy)]
pub struct Reached<S> {
    pub step: S,
    pub reason: u32,
    pub taken: usize,
    pub sent: usize,
}

// Where a call stopped, and why.
#[derive(Clone, Copy)]
pub struct Stop<S> {
    pub at: Reached<S>,
    pub standing: Standing,
}

impl<S: Copy> Reached<S> {
    pub fn start(step: S, reason: u32) -> Reached<S>
        ensures { result ≡ record { step = step; reason = reason; taken = 0; sent = 0 } }
    {
        Reached {
            step,
            reason,
            taken: 0,
            sent: 0,
        }
    }

    // Past a turn that took bytes. That they lie within the input, of `end` bytes, shows that the sum doesn't wrap.
    pub fn add_taken(&mut self, moved: Moved<S>, end: usize)
        requires { self.old.taken + moved.count ≤ end }
        ensures { self.new ≡ record { step = moved.step; reason = moved.reason; taken = self.old.taken + moved.count; sent = self.old.sent } }
    {
        self.step = moved.step;
        self.reason = moved.reason;
        self.taken += moved.count;
    }

    // Past a turn that sent bytes, within the reply of `end` bytes.
    pub fn add_sent(&mut self, moved: Moved<S>, end: usize)
        requires { self.old.sent + moved.count ≤ end }
        ensures { self.new ≡ record { step = moved.step; reason = moved.reason; taken = self.old.taken; sent = self.old.sent + moved.count } }
    {
        self.step = moved.step;
        self.reason = moved.reason;
        self.sent += moved.count;
    }

    pub fn stop(self, standing: Standing) -> Stop<S>
        ensures { result ≡ record { at = self; standing = standing } }
    {
        Stop { at: self, standing }
    }
}

impl<S: Copy> Stop<S> {
    // What the accepted call did, with the record of its last step.
    pub fn accepted(self, session: Record) -> Accepted
        ensures { result ≡ accepted_at self session }
    {
        Accepted {
            standing: self.standing,
            taken: self.at.taken,
            sent: self.at.sent,
            session,
        }
    }
}
