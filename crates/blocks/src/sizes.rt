// The sizes of the file format.

// A block, its bytes before the check, and its entries.
pub const BLOCK: usize = 512;

pub const BODY: usize = 508;

pub const PAIRS: usize = 504;

pub const ENTRIES: usize = 1008;

// The two lengths of a file.
pub const SHORT_FILE: usize = 1024;

pub const LONG_FILE: usize = 1536;

// The runs of zeros of block 0: from byte 13 on in QPL1; from 14 on in QPL2, where byte 13 is a field; and the last.
pub const FIRST_RUN: usize = 3;

pub const SHORT_RUN: usize = 2;

pub const LAST_RUN: usize = 460;
