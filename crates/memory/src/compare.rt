// Bytes compared with those in a memory.
ghost use Rattle.std.specs.Prelude.{◌≡◌};
ghost use Rattle.memory.specs.Compare.{is_front};

// Whether a part of a memory begins with these bytes.
#[tactic(auto, using(crate::proofs::Compares::starts_front))]
pub fn is_front(bytes: &[u8], part: &[u8]) -> bool
    ensures { result ≡ is_front bytes.now part.now }
{
    part.starts_with(bytes)
}
