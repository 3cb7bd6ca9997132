// The payload's bytes, straight from the lent command.
ghost use Rattle.std.specs.Prelude.{◌≡◌, ◌<◌, length};
ghost use Rattle.host_flow.specs.Flow.{paid};
ghost use Rattle.host_flow.specs.Gives.{PayloadSent};

use host_flow::step::Step;
use machine::step::Moved;
use memory::copy::copy_up_to;

// The step once `count` of the payload's bytes are sent.
fn paid_step(size: u32, count: u32) -> Step
    ensures { result ≡ paid size count }
{
    if count < size {
        Step::SendPayload(count)
    } else {
        Step::TakePayloadAck
    }
}

// Sends as many payload bytes as are left and have room, from output byte j on.
pub fn send_payload(
    size: u32,
    place: u32,
    reason: u32,
    payload: &[u8],
    output: &mut [u8],
    j: usize,
) -> Moved<Step>
    requires { (place < size) × (size ≡ length payload.now) × (j < length output.old) }
    ensures { PayloadSent place reason payload.now j output.old result output.new }
{
    let room = output.len();
    let count = copy_up_to(payload, place as usize, output, j, room);
    Moved {
        step: paid_step(size, place + (count as u32)),
        reason,
        count,
    }
}
