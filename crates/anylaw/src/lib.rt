// Demands 2 and 3, once over any law. This crate has no code.
#![tactic(auto)]
