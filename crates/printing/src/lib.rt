// The lines that bench writes, into a lent buffer.
#![tactic(auto)]

pub mod line;
pub mod put;
mod refusal;
mod settings;
