// What is done to memories: stores, copies, flash stores, erasure and comparison.
#![tactic(auto)]

pub mod compare;
pub mod copy;
pub mod flash;
pub mod store;
