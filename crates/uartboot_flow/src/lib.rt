// The uartboot session's flow, step by step, and what each step asks.
#![tactic(auto)]

pub mod ask;
pub mod checksum;
pub mod kind;
pub mod reason;
pub mod step;
