// Image ids: the one that follows another, and which of two is the newer.
ghost use Rattle.std.specs.Prelude.{◌≡◌};
ghost use Rattle.slot.specs.Id.{next_id, follows, is_newer};

// The id that follows another.
pub fn next_id(id: u8) -> u8
    ensures { result ≡ next_id id }
{
    id.wrapping_add(1)
}

// Whether an id is the one that follows another.
fn follows(id: u8, other: u8) -> bool
    ensures { result ≡ follows id other }
{
    id == next_id(other)
}

// Whether an id is newer than another.
#[tactic(auto, unfolding(crate::specs::Id::is_newer))]
pub fn is_newer(id: u8, than: u8) -> bool
    ensures { result ≡ is_newer id than }
{
    if follows(id, than) {
        return true;
    }
    if follows(than, id) {
        return false;
    }
    than < id
}
