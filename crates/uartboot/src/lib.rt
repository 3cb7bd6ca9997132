// The uartboot session as its caller sees it: the call.
#![tactic(auto)]

pub mod session;
