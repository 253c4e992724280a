// "Can it fit at all?": a forward pass over the scans that stops where no beginning is within the budget. It keeps, for each setting, the least
// rate with which a beginning ends in it, and needs neither scratch nor weights.
#![tactic(auto)]

pub mod asked;
pub mod call;
pub mod step;
