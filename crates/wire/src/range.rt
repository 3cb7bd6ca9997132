// Whether a range of bytes lies wholly in a memory.
ghost use Rattle.std.specs.Prelude.{◌≡◌};
ghost use Rattle.wire.specs.Range.{place_in};

// Where `count` bytes from the address `start` on begin in a memory of `size` bytes whose first address is `base`, if they lie wholly in
// it. Only differences are made, so nothing can wrap.
#[tactic(auto, unfolding(crate::specs::Range::lies_in, crate::specs::Range::place_in))]
pub fn place_in(start: usize, count: usize, base: usize, size: usize) -> Option<usize>
    ensures { result ≡ place_in start count base size }
{
    let place = start.checked_sub(base)?;
    let room = size.checked_sub(place)?;
    if room < count {
        return None;
    }
    Some(place)
}
