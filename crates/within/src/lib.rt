// The running totals of plans within a budget. For every setting that may stand before a scan and every budget that may be left, they hold the
// least distortion to the end, and beside it stands the lowest setting that attains it. They go backward over the scans, one row of totals for
// each setting before.
#![tactic(auto)]

pub mod fill;
pub mod row;
