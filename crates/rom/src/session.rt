// The receiver's session: the loop over its actions, and the call.
ghost use Rattle.std.specs.Prelude.{◌≡◌};
ghost use Rattle.machine.specs.Session.{result_of};
ghost use Rattle.machine.specs.Stop.{ActedTo};
ghost use Rattle.rom_flow.specs.Receiver.{receiver};
ghost use Rattle.rom_flow.specs.State.{state};
ghost use Rattle.rom.specs.Session.{rom, given_back};
ghost use Rattle.rom_flow.specs.Sound.{Ready};

use machine::ask::Ask;
use machine::refusal::Refusal;
use machine::stop::{Reached, Standing, Stop};
use machine::{Accepted, Record};
use rom_flow::ask::ask_of;
use rom_flow::kind::Kind;
use rom_flow::step::Step;
use rom_record::{decode, encode};
use rom_turn::{send, take};
use wire::length::is_ram_length;

// Acts until a byte or room is missing, or code runs.
// Each session has its own loop: shared in a trait, each method would have to promise that the lent memories stay the ones it was given,
// which takes longer than the loop.
fn act(
    kind: Kind,
    first: Step,
    reason: u32,
    input: &[u8],
    reply: &mut [u8],
    ram: &mut [u8],
) -> Stop<Step>
    requires { Ready kind first ram.old }
    ensures { ActedTo receiver (state kind first reason ram.old) input.now reply.old result (state kind result.at.step result.at.reason ram.new) reply.new }
{
    let mut at = Reached::start(first, reason);
    loop {
        match ask_of(at.step) {
            Ask::Take(taking) => {
                if at.taken >= input.len() {
                    return at.stop(Standing::NeedsByte);
                }
                let moved = take(taking, kind, at.reason, input, at.taken, ram);
                at.add_taken(moved, input.len());
            }
            Ask::Send(sending) => {
                if at.sent >= reply.len() {
                    return at.stop(Standing::NeedsRoom);
                }
                let moved = send(sending, at.reason, reply, at.sent, ram);
                at.add_sent(moved, reply.len());
            }
            Ask::Halt => {
                return at.stop(Standing::Ended);
            }
        }
    }
}

// A call to the session.
pub fn call(
    session: Record,
    input: &[u8],
    reply: &mut [u8],
    ram: &mut [u8],
) -> Result<Accepted, Refusal>
    ensures { given_back session result reply.new ram.new ≡ result_of rom session ram.old input.now reply.old }
{
    let size = ram.len();
    if !is_ram_length(size) {
        return Err(Refusal::RamLength);
    }
    let Some((kind, step)) = decode(size as u32, session) else {
        return Err(Refusal::Record);
    };
    let end = act(kind, step, session.reason, input, reply, ram);
    Ok(end.accepted(encode(kind, end.at.step, end.at.reason)))
}
