// The checks that come before a call's work, in document 01's order, and the first of them that fails; and what has passed them.
#![tactic(auto)]

pub mod check;
pub mod checked;
pub mod lent;
pub mod range;
pub mod stage;
