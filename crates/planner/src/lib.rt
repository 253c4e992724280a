// The four planning calls. None asks anything of its caller: tables, lengths, buffers and limits may have any content. Each is the checks and then
// its own search, two lines that one function over the search would only hide.
#![tactic(auto)]

pub mod average;
pub mod ceiling;
pub mod minmax;
pub mod multiplier;
