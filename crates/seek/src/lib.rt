// The two passes that the planning calls are made of, how a call with a budget starts, and how a call ends.
#![tactic(auto)]

pub mod finish;
pub mod passes;
pub mod start;
