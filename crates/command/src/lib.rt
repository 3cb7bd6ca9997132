// uartboot's commands: what a payload says, and the checks.
#![tactic(auto)]

pub mod check;
pub mod fault;
pub mod payload;
pub mod version;
