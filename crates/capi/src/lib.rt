// The functions that C calls for versions, slots and offers. As in all crates for C, numbers and results go by value, a slice is
// pointer and length, a record is eight words.
#![tactic(auto)]

ghost use Rattle.std.specs.Prelude.{◌≡◌};
ghost use Rattle.version.specs.Rank.{rank_of};
ghost use Rattle.version.specs.Order.{order_of};
ghost use Rattle.slot.specs.Id.{next_id};
ghost use Rattle.slot.specs.Slot.{select_of};
ghost use Rattle.offer.specs.Offer.{offer_of};

use offer::Offered;
use slot::Selected;
use version::order::Ordered;
use version::rank::Ranked;

// The rank of a version field.
#[unsafe(no_mangle)]
pub extern "C" fn und_rank(field: &[u8]) -> Ranked
    ensures { result ≡ rank_of field.now }
{
    version::rank::rank(field)
}

// The order of two version fields.
#[unsafe(no_mangle)]
pub extern "C" fn und_order(a: &[u8], b: &[u8]) -> Ordered
    ensures { result ≡ order_of a.now b.now }
{
    version::order::order(a, b)
}

// The flash slot that will start, by the product header at an offset.
#[unsafe(no_mangle)]
pub extern "C" fn und_select(flash: &[u8], offset: u32) -> Selected
    ensures { result ≡ select_of flash.now offset }
{
    slot::select(flash, offset)
}

// The image id that follows another.
#[unsafe(no_mangle)]
pub extern "C" fn und_next_id(id: u8) -> u8
    ensures { result ≡ next_id id }
{
    slot::id::next_id(id)
}

// Which of two image files wins, and where its code lies there.
#[unsafe(no_mangle)]
pub extern "C" fn und_offer(installed: &[u8], candidate: &[u8]) -> Offered
    ensures { result ≡ offer_of installed.now candidate.now }
{
    offer::judge(installed, candidate)
}
