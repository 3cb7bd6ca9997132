// Where a flow goes: its next step with the last reason, and how many bytes led there.
ghost use Rattle.std.specs.Prelude.{◌≡◌};

// A step together with the last reason.
#[derive(Clone, Copy)]
pub struct Progress<S> {
    pub step: S,
    pub reason: u32,
}

// The same after `count` bytes were taken, or sent.
#[derive(Clone, Copy)]
pub struct Moved<S> {
    pub step: S,
    pub reason: u32,
    pub count: usize,
}

pub fn to<S>(step: S, reason: u32) -> Progress<S>
    ensures { result ≡ record { step = step; reason = reason } }
{
    Progress { step, reason }
}

impl<S> Progress<S> {
    // One byte was taken, or sent.
    pub fn by_one(self) -> Moved<S>
        ensures { result ≡ record { step = self.step; reason = self.reason; count = 1 } }
    {
        let Progress { step, reason } = self;
        Moved {
            step,
            reason,
            count: 1,
        }
    }
}
