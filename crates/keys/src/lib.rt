// Rates, distortions and what they cost together; and the weights that put a cost and its ties into one number.
#![tactic(auto)]

pub mod cost;
pub mod weigh;
