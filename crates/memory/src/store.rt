// Bytes stored at the front of a part of a memory.
ghost use Rattle.std.specs.Prelude.{◌≡◌, ◌≤◌, length};
ghost use Rattle.memory.specs.Store.{laid};

// Stores bytes at the front of a part that has room for them. Its other bytes stay. A loop like that of `burn` and not the library's copy
// of a slice, which would call `memmove`: a caller without a C library may have none.
#[tactic(auto, using(crate::proofs::Stores::lays))]
pub fn lay(part: &mut [u8], bytes: &[u8])
    requires { length bytes.now ≤ length part.old }
    ensures { part.new ≡ laid bytes.now part.old }
{
    for (i, &byte) in bytes.iter().enumerate() {
        part[i] = byte;
    }
}
