// The session: the loop over its turns, and the call.
ghost use Rattle.std.specs.Prelude.{◌≡◌};
ghost use Rattle.machine.specs.Session.{result_of};
ghost use Rattle.machine.specs.Stop.{ActedTo};
ghost use Rattle.machine.specs.Told.{refusal_number, outcome_number};
ghost use Rattle.memory.specs.Memories.{memories};
ghost use Rattle.uartboot_flow.specs.State.{state};
ghost use Rattle.uartboot_flow.specs.Device.{device};
ghost use Rattle.uartboot_flow.specs.Sound.{Ready};
ghost use Rattle.uartboot.specs.Session.{refusal_of, uartboot, given_back};

use machine::ask::Ask;
use machine::refusal::Refusal;
use machine::stop::{Reached, Standing, Stop};
use machine::{Accepted, Record};
use uartboot_flow::ask::ask_of;
use uartboot_flow::step::Step;
use uartboot_record::{decode, encode};
use uartboot_turn::{send, take};
use wire::length::{is_flash_length, is_ram_length, is_work_length};

// Acts until a byte or room is missing, or code runs.
// Each session has its own loop: shared in a trait, each method would have to promise that the lent memories stay the ones it was given,
// which takes longer than the loop.
fn act(
    first: Step,
    reason: u32,
    input: &[u8],
    reply: &mut [u8],
    ram: &mut [u8],
    flash: &mut [u8],
    work: &mut [u8],
) -> Stop<Step>
    requires { Ready first (memories ram.old flash.old work.old) }
    ensures { ActedTo device (state first reason (memories ram.old flash.old work.old)) input.now reply.old result (state result.at.step result.at.reason (memories ram.new flash.new work.new)) reply.new }
{
    let mut at = Reached::start(first, reason);
    loop {
        match ask_of(at.step) {
            Ask::Take(taking) => {
                if at.taken >= input.len() {
                    return at.stop(Standing::NeedsByte);
                }
                let moved = take(taking, at.reason, input, at.taken, ram, flash, work);
                at.add_taken(moved, input.len());
            }
            Ask::Send(sending) => {
                if at.sent >= reply.len() {
                    return at.stop(Standing::NeedsRoom);
                }
                let moved = send(sending, at.reason, reply, at.sent, ram, flash, work);
                at.add_sent(moved, reply.len());
            }
            Ask::Halt => {
                return at.stop(Standing::Ended);
            }
        }
    }
}

// Tests the lengths of the memories: the work buffer's first, then RAM's, then that of flash.
pub fn check_lengths(ram: usize, flash: usize, work: usize) -> Result<(), Refusal>
    ensures { outcome_number refusal_number result ≡ refusal_of ram flash work }
{
    if !is_work_length(work) {
        return Err(Refusal::WorkLength);
    }
    if !is_ram_length(ram) {
        return Err(Refusal::RamLength);
    }
    if !is_flash_length(flash) {
        return Err(Refusal::FlashLength);
    }
    Ok(())
}

// A call to the session.
pub fn call(
    session: Record,
    input: &[u8],
    reply: &mut [u8],
    ram: &mut [u8],
    flash: &mut [u8],
    work: &mut [u8],
) -> Result<Accepted, Refusal>
    ensures { given_back session result reply.new (memories ram.new flash.new work.new) ≡ result_of uartboot session (memories ram.old flash.old work.old) input.now reply.old }
{
    check_lengths(ram.len(), flash.len(), work.len())?;
    let Some(step) = decode(ram.len(), work.len(), session) else {
        return Err(Refusal::Record);
    };
    let end = act(step, session.reason, input, reply, ram, flash, work);
    Ok(end.accepted(encode(end.at.step, end.at.reason)))
}
