// Bytes of a QPL2 file changed or exchanged are refused. This crate has no code.
#![tactic(auto)]
