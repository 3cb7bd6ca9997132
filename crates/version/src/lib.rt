// Version text in fields of 16 bytes: its rank, and the order of two versions.
#![tactic(auto)]

pub mod decimal;
pub mod order;
pub mod rank;
