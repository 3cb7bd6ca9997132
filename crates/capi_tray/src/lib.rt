// The function that C calls for a tray of versions. A slice of numbers is a pointer and how many numbers there are.
#![tactic(auto)]

ghost use Rattle.std.specs.Prelude.{◌≡◌};
ghost use Rattle.tray.specs.Tray.{tray, tray_of};

// The rank of every field of a tray.
#[unsafe(no_mangle)]
pub extern "C" fn und_rank_tray(fields: &[u8], ranks: &mut [u32]) -> u32
    ensures { tray result ranks.new ≡ tray_of fields.now ranks.old }
{
    match tray::rank_tray(fields, ranks) {
        Ok(()) => 0,
        Err(refusal) => refusal.into(),
    }
}
