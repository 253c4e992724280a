// The numbers of document 01, and of document 02, [6].

pub const MOST_SCANS: u64 = 1024;

pub const MOST_SETTINGS: u64 = 16;

// Of a short series: its scans, and the budget within which its true best is found.
pub const MOST_SHORT_SCANS: u64 = 64;

pub const MOST_SHORT_BUDGET: u64 = 4095;

pub const MOST_CHANNELS: u64 = 1048576;

// The largest legal rate or distortion of a cell.
pub const MOST_CELL: u32 = 1048575;

// The rate that means "this choice is forbidden".
pub const FORBIDDEN: u32 = 4294967295;

// The most that the rates or the distortions of a sequence come to.
pub const MOST_TOTAL: u64 = 1073740800;

// More than any of these totals: the total where there is no sequence. With a cell, or with another such total, it still fits 32 bits.
// A number and no Option: the least of two is `min` alone.
pub const OVER_TOTAL: u32 = 1073741824;

// The largest n and the largest d of a multiplier.
pub const MOST_TERM: u64 = 1073741823;
