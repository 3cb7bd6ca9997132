// The host: the loop over its turns, and the call.
ghost use Rattle.std.specs.Prelude.{◌≡◌};
ghost use Rattle.machine.specs.Session.{result_of};
ghost use Rattle.machine.specs.Stop.{ActedTo};
ghost use Rattle.host_command.specs.Exchange.{lent, exchange_of};
ghost use Rattle.host_flow.specs.State.{state};
ghost use Rattle.host_flow.specs.Host.{host};
ghost use Rattle.host_flow.specs.Sound.{Ready};
ghost use Rattle.host.specs.Session.{host_session, given_back};

use crate::refusal::CallRefusal;
use host_command::{Exchange, judge};
use host_flow::ask::{Ask, ask_of};
use host_flow::step::Step;
use host_record::{decode, encode};
use host_turn::{look, send, take};
use machine::stop::{Reached, Standing, Stop};
use machine::{Accepted, Record};

// Acts until a byte or room is missing, or the command is over. After a look it is over.
// Each session has its own loop: shared in a trait, each method would have to promise that the lent memories stay the ones it was given,
// which takes longer than the loop.
fn act(
    x: Exchange,
    first: Step,
    reason: u32,
    payload: &[u8],
    input: &[u8],
    output: &mut [u8],
    answer: &mut [u8],
) -> Stop<Step>
    requires payload_value { exchange_of x.opcode payload.now ≡ x }
    requires ready { Ready first (lent x.opcode payload.now answer.old) }
    ensures { ActedTo host (state first reason (lent x.opcode payload.now answer.old)) input.now output.old result (state result.at.step result.at.reason (lent x.opcode payload.now answer.new)) output.new }
{
    let mut at = Reached::start(first, reason);
    loop {
        match ask_of(x, at.step) {
            Ask::Take(taking) => {
                if at.taken >= input.len() {
                    return at.stop(Standing::NeedsByte);
                }
                let moved = take(taking, x, at.reason, payload, input, at.taken, answer);
                at.add_taken(moved, input.len());
            }
            Ask::Send(sending) => {
                if at.sent >= output.len() {
                    return at.stop(Standing::NeedsRoom);
                }
                let moved = send(sending, x, at.reason, payload, output, at.sent, answer);
                at.add_sent(moved, output.len());
            }
            Ask::Look => {
                if at.taken >= input.len() {
                    return at.stop(Standing::NeedsByte);
                }
                let moved = look(at.reason, input[at.taken]);
                at.add_taken(moved, input.len());
                return at.stop(Standing::Ended);
            }
            Ask::Halt => {
                return at.stop(Standing::Ended);
            }
        }
    }
}

// A call to the host, lent its command and a buffer for the answer.
pub fn call(
    session: Record,
    opcode: u32,
    payload: &[u8],
    input: &[u8],
    output: &mut [u8],
    answer: &mut [u8],
) -> Result<Accepted, CallRefusal>
    ensures { given_back session result output.new (lent opcode payload.now answer.new) ≡ result_of host_session session (lent opcode payload.now answer.old) input.now output.old }
{
    let x = judge(opcode, payload, answer)?;
    let Some(step) = decode(x, session) else {
        return Err(CallRefusal::Record);
    };
    let end = act(x, step, session.reason, payload, input, output, answer);
    Ok(end.accepted(encode(end.at.step, end.at.reason)))
}
