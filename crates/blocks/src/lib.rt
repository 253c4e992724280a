// The blocks of a plan file: its letters, the number and the check of each block, and the entries two to a byte.
#![tactic(auto)]

pub mod check;
pub mod letters;
pub mod packed;
pub mod sizes;
pub mod sound;
