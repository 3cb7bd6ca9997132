// A number of two bytes sent, the low byte first: both where there is room for both, and else the low one alone.
ghost use Rattle.std.specs.Prelude.{◌≡◌, ◌<◌, length};
ghost use Rattle.machine.specs.Word.{word_sent};

use crate::step::{Moved, to};
use numbers::{high_byte, low_byte};

// Sends a word as reply byte j and the byte after it. `half` is the step after the low byte, `whole` that after both.
pub fn send_word<S: Copy>(
    word: u16,
    half: S,
    whole: S,
    reason: u32,
    reply: &mut [u8],
    j: usize,
) -> Moved<S>
    requires { j < length reply.old }
    ensures { (result, reply.new) ≡ word_sent word half whole reason j reply.old }
{
    reply[j] = low_byte(word as u32);
    let next = j + 1;
    if next == reply.len() {
        return to(half, reason).by_one();
    }
    reply[next] = high_byte(word as u32);
    Moved {
        step: whole,
        reason,
        count: 2,
    }
}
