// Laws on lists, numbers and tests that several crates cite. This crate has no code, and one definition: a text in a lent buffer.
#![tactic(auto)]
