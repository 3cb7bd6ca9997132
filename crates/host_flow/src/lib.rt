// The host's flow, step by step, and what each step asks.
#![tactic(auto)]

pub mod ask;
pub mod kind;
pub mod reason;
pub mod step;
