// A tray of version fields: the rank of each, in one call.
#![tactic(auto)]

ghost use Rattle.std.specs.Prelude.{◌≡◌, ◌<◌, ◌≤◌, ◌++◌, ◌∷◌, [], length};
ghost use Rattle.memory.specs.Store.{laid};
ghost use Rattle.version.specs.Rank.{rank_length};
ghost use Rattle.tray.specs.Tray.{entries_of, is_tray, refusal_number, number_of, tray, tray_of};

use version::rank::{FIELD, NUMBERS, Ranked, rank};

// How many fields a tray has at most.
const MOST_FIELDS: usize = 1_024;

// How many numbers an entry has: those of the rank, and the one that the field gets alone.
const ENTRY: usize = NUMBERS + 1;

// The number given for a list that is not whole fields, or has too many.
pub const BAD_TRAY: u32 = 64;

// The number given where the room is shorter than the entries.
pub const SHORT_RANKS: u32 = 65;

// Why a tray is refused.
#[derive(Clone, Copy, Debug, PartialEq, Eq)]
pub enum TrayRefusal {
    BadTray,
    ShortRanks,
}

impl From<TrayRefusal> for u32 {
    ghost from_gives = { λ refusal number. number ≡ refusal_number refusal };

    fn from(refusal: TrayRefusal) -> u32 {
        match refusal {
            TrayRefusal::BadTray => BAD_TRAY,
            TrayRefusal::ShortRanks => SHORT_RANKS,
        }
    }
}

#[tactic(auto, unfolding(crate::specs::Tray::is_tray))]
fn is_tray(fields: &[u8]) -> bool
    ensures { result ≡ is_tray fields.now }
{
    fields.len() % FIELD == 0 && fields.len() / FIELD <= MOST_FIELDS
}

// Writes an entry to the front of the room.
fn put_entry(ranked: Ranked, room: &mut [u32])
    requires { rank_length < length room.old }
    ensures { room.new ≡ laid (ranked.rank ++ ranked.number ∷ []) room.old }
{
    room[..NUMBERS].copy_from_slice(&ranked.rank);
    room[NUMBERS] = ranked.number;
}

// Writes the entry of each field to the front of room that is long enough for all.
fn put_entries(fields: &[u8], ranks: &mut [u32])
    requires { length (entries_of fields.now) ≤ length ranks.old }
    ensures { ranks.new ≡ laid (entries_of fields.now) ranks.old }
{
    // The place in the room is counted: by `chunks_exact_mut` nothing would be known of the room afterwards.
    let (each, _) = fields.as_chunks::<FIELD>();
    for (place, field) in each.iter().enumerate() {
        put_entry(rank(field), &mut ranks[place * ENTRY..]);
    }
}

// Ranks every field of a tray.
#[tactic(auto, using(crate::proofs::Entries::entries_length), unfolding(crate::specs::Tray::tray_of))]
pub fn rank_tray(fields: &[u8], ranks: &mut [u32]) -> Result<(), TrayRefusal>
    ensures { tray (number_of result) ranks.new ≡ tray_of fields.now ranks.old }
{
    if !is_tray(fields) {
        return Err(TrayRefusal::BadTray);
    }
    if ranks.len() < fields.len() / FIELD * ENTRY {
        return Err(TrayRefusal::ShortRanks);
    }
    put_entries(fields, ranks);
    Ok(())
}
