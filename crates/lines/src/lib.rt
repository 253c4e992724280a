// The lines of an encoder's list: where a line and its fields end, what a field holds, and what a line says.
#![tactic(auto)]

pub mod ends;
pub mod field;
pub mod says;
