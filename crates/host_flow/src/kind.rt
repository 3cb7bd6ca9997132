// The host's own type: its kind number, and a fresh record.
ghost use Rattle.std.specs.Prelude.{◌≡◌};
ghost use Rattle.host_flow.specs.Fresh.{fresh_record};

use machine::{Record, start};

// A host: what belongs to the session itself.
#[derive(Clone, Copy)]
pub struct Host {
    pub kind: u32,
}

impl Host {
    pub const KIND: u32 = 3;

    pub fn fresh() -> Record
        ensures { result ≡ fresh_record }
    {
        start(Host::KIND)
    }
}
