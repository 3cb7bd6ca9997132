// A command's payload: taken and checked, and its CRC.
#![tactic(auto)]

pub mod checksum;
pub mod payload;
