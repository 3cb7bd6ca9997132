// The host's end of uartboot as its caller sees it: the call.
#![tactic(auto)]

pub mod refusal;
pub mod session;
