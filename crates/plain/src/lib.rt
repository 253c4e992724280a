// A line of an encoder's list, read in one walk where it is plain, and by its parts where it is not.
#![tactic(auto)]

pub mod digits;
pub mod line;
pub mod plain;
