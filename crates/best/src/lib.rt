// The true best of a short series: the least distortion within a budget, then the least rate, then the first.
#![tactic(auto)]

pub mod check;
pub mod plan;
pub mod trace;
