// Laws of encoders' lists: what is exported is imported again. This crate has no code.
#![tactic(auto)]
