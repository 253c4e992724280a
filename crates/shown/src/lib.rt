// What test programs share: the turns that they take, the numbers that they read, the tables and weights that they make, and what they show of a
// call: its answer, every byte of a lent buffer, and every cell of a table.
#![tactic(auto)]

pub mod answer;
pub mod coded;
pub mod group;
pub mod input;
pub mod lent;
pub mod source;
pub mod stream;
pub mod turns;
