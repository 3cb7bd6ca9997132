// A command's answer: its bytes, and what the host says to it.
#![tactic(auto)]

pub mod answer;
pub mod host;
