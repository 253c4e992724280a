// How long a plan's file is: N over 1,008 goes with length 1,536 and smaller N with 1,024.
ghost use Rattle.std.specs.Prelude.{◌≡◌, ◌≤◌};
ghost use Rattle.blocks.specs.File.{data_blocks, file_length};

use blocks::sizes::{BLOCK, ENTRIES};

// The data blocks of a file of so many scans.
pub fn data_blocks(scans: u64) -> u64
    ensures { (result ≡ data_blocks scans) × (result ≤ 2) }
{
    if (ENTRIES as u64) < scans { 2 } else { 1 }
}

// Block 0 and its data blocks.
pub fn file_length(scans: u64) -> u64
    ensures { result ≡ file_length scans }
{
    BLOCK as u64 * (data_blocks(scans) + 1)
}
