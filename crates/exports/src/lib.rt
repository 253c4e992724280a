// Export of the two tables as an encoder's list, in cell order.
#![tactic(auto)]

pub mod digits;
pub mod export;
pub mod line;
pub mod place;
