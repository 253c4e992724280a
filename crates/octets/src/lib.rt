// Numbers in bytes, low byte first, and the halves of a byte.
#![tactic(auto)]

pub mod halves;
pub mod numbers;
