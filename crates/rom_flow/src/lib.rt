// The ROM's UART receiver, step by step: its kinds, and what a step asks.
#![tactic(auto)]

pub mod ask;
pub mod kind;
pub mod step;
