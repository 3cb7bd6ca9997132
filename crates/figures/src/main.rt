// Runs the published figures over the proved code. What it writes is held to the file stdout beside src/.
#![tactic(auto)]

mod checksums;
mod exchanges;
mod ranges;
mod readings;

use std::io;

fn main(rt: HostRuntime) -> io::Result<()> {
    checksums::run(&rt)?;
    readings::run(&rt)?;
    ranges::run(&rt)?;
    exchanges::run(&rt)
}
