// The two searches: the least ceiling by halving, and the average plan by slopes.
#![tactic(auto)]

pub mod halving;
pub mod slopes;
