// Replays the recording on standard input with stated memories, and prints one line: equal, the place of the first difference, a minus and
// a refusal's number, or too long.
#![tactic(auto)]

mod stated;

use crate::stated::{LONGEST, replay_stated};
use show::read_full;
use std::io;
use visit::Replayed;

fn show_answer(rt: &impl Print, answer: Replayed) -> io::Result<()> {
    if answer.number != 0 {
        println!(rt; "-{}", answer.number)
    } else if answer.equal != 0 {
        println!(rt; "equal")
    } else {
        println!(rt; "{}", answer.place)
    }
}

fn main(rt: HostRuntime) -> io::Result<()> {
    let mut file = stated::file();
    let count = read_full(&rt, &mut file)?;
    if count > LONGEST {
        return println!(&rt; "too long");
    }
    show_answer(&rt, replay_stated(&file[..count]))
}
