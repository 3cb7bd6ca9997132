// Little-endian numbers of up to 4 bytes, written by a caller that knows that there is room.
ghost use Rattle.std.specs.Prelude.{◌≡◌, ◌+◌, ◌≤◌, length};
ghost use Rattle.std.proofs.lemmas.List.Edits.{sets};
ghost use Rattle.numbers.specs.Number.{bytes_of};

// Writes the lowest WIDTH bytes of a number from a place on, the lowest first.
#[tactic(auto, using(crate::proofs::Numbers::put_bytes))]
pub fn put<const WIDTH: usize>(out: &mut [u8], place: usize, number: u32)
    requires narrow { WIDTH ≤ 4 }
    requires room { place + WIDTH ≤ length out.old }
    ensures { out.new ≡ sets out.old place (bytes_of WIDTH number) }
{
    out[place..place + WIDTH].copy_from_slice(&number.to_le_bytes()[..WIDTH]);
}
