// Ranges as they come over the wire, judged without a sum that could wrap; RAM addresses and flash offsets, the lengths that memories
// may have, and the line's bytes.
#![tactic(auto)]

pub mod length;
pub mod line;
pub mod range;
pub mod unit;
