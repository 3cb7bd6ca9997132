// The ROM's UART receiver as a session: the call that loads code into RAM and runs it.
#![tactic(auto)]

pub mod session;
