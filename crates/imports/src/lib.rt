// Import of an encoder's list into the two tables.
#![tactic(auto)]

pub mod import;
pub mod judge;
pub mod left;
pub mod size;
pub mod write;
