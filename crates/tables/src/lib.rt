// Document 01's tables: cells, laws, the refusals, the common divisor.
#![tactic(auto)]

pub mod cells;
pub mod common;
pub mod law;
pub mod limits;
pub mod refusal;
