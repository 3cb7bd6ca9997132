// A recorded visit: what is wrong with its file, and the way through the bytes of one kind.
#![tactic(auto)]

pub mod form;
pub mod run;
