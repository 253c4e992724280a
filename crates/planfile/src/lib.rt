// Plan files: the reader and the writer.
#![tactic(auto)]

pub mod header;
pub mod lengths;
pub mod read;
pub mod write;
