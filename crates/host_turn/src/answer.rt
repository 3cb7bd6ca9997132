// The answer: its bytes go straight into the lent buffer, and its CRC is made from there. Where the output has room for both bytes of the
// CRC, one computation serves both.
ghost use Rattle.std.specs.Prelude.{◌≡◌, ◌≤◌, ◌<◌, length};
ghost use Rattle.host_flow.specs.Flow.{answer_crc, collected};
ghost use Rattle.host_flow.specs.Gives.{AnswerTaken, CrcSent};

use host_flow::step::Step;
use machine::step::{Moved, to};
use machine::word::send_word;
use memory::copy::copy_up_to;
use numbers::high_byte;

// The step once `count` of the answer's bytes are in.
fn collected_step(size: u32, count: u32) -> Step
    ensures { result ≡ collected size count }
{
    if count < size {
        Step::TakeAnswer(count)
    } else {
        Step::SendCrcLow
    }
}

// Takes as many answer bytes as are awaited and there, from input byte i on.
pub fn take_answer(
    size: u32,
    place: u32,
    reason: u32,
    input: &[u8],
    i: usize,
    answer: &mut [u8],
) -> Moved<Step>
    requires { (place < size) × (size ≤ length answer.old) × (i < length input.now) }
    ensures { AnswerTaken size place reason input.now i answer.old result answer.new }
{
    let count = copy_up_to(input, i, answer, place as usize, size as usize);
    Moved {
        step: collected_step(size, place + (count as u32)),
        reason,
        count,
    }
}

// The CRC-16 of an answer of this length.
fn crc_of(size: u32, answer: &[u8]) -> u16
    requires { size ≤ length answer.now }
    ensures { result ≡ answer_crc size answer.now }
{
    let end = size as usize;
    crc::crc_of::<u16>(&answer[..end])
}

// Sends the low byte of the answer's CRC as output byte j, and its high byte after that where there is room.
pub fn send_crc(size: u32, reason: u32, answer: &[u8], output: &mut [u8], j: usize) -> Moved<Step>
    requires { (size ≤ length answer.now) × (j < length output.old) }
    ensures { CrcSent Step.SendCrcLow size reason answer.now j output.old result output.new }
{
    let crc = crc_of(size, answer);
    send_word(
        crc,
        Step::SendCrcHigh,
        Step::TakeLastAck, // both bytes have gone
        reason,
        output,
        j,
    )
}

// Sends the high byte of the answer's CRC as output byte j.
pub fn send_crc_high(
    size: u32,
    reason: u32,
    answer: &[u8],
    output: &mut [u8],
    j: usize,
) -> Moved<Step>
    requires { (size ≤ length answer.now) × (j < length output.old) }
    ensures { CrcSent Step.SendCrcHigh size reason answer.now j output.old result output.new }
{
    output[j] = high_byte(crc_of(size, answer) as u32);
    to(Step::TakeLastAck, reason).by_one()
}
