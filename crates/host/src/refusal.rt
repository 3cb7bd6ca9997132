// Why a call to the host is refused.
ghost use Rattle.std.specs.Prelude.{◌≡◌};
ghost use Rattle.host.specs.Refusal.{refusal_number};
ghost use Rattle.host.specs.declared.refusal.CallRefusal.TheVariants.{Command};

use host_command::Refusal;
use machine::refusal::BAD_RECORD;

// The command is refused, or the record is unsound.
#[derive(Clone, Copy, Debug, PartialEq, Eq)]
pub enum CallRefusal {
    Command(Refusal),
    Record,
}

impl From<Refusal> for CallRefusal {
    ghost from_gives = { λ refusal why. why ≡ Command refusal };

    fn from(refusal: Refusal) -> CallRefusal {
        CallRefusal::Command(refusal)
    }
}

impl From<CallRefusal> for u32 {
    ghost from_gives = { λ why number. number ≡ refusal_number why };

    fn from(why: CallRefusal) -> u32 {
        match why {
            CallRefusal::Command(refusal) => refusal.into(),
            CallRefusal::Record => BAD_RECORD,
        }
    }
}
