// Settings two to a byte, the even entry in the low four bits.
ghost use Rattle.blocks.specs.Sizes.{block_size, block_entries};
ghost use Rattle.std.specs.Prelude.{◌≡◌, ◌+◌, ◌*◌, ◌/◌, ◌%◌, ◌≤◌, ◌<◌, length, get_or, set};
ghost use Rattle.blocks.specs.File.{entry_at};
ghost use Rattle.octets.specs.Bytes.{with_half};
ghost use Rattle.blocks.specs.Packed.{place_of};

use crate::sizes::{BLOCK, ENTRIES};
use octets::halves::{half_of, with_half};

// The byte of entry j.
fn place(j: usize) -> usize
    requires { j < 2 * block_entries }
    ensures { result ≡ place_of j }
{
    BLOCK * (j / ENTRIES + 1) + 4 + ((j % ENTRIES) >> 1)
}

// Entry j of a file.
pub fn get(file: &[u8], j: usize) -> u8
    requires { (j < 2 * block_entries) × (block_size * (j / block_entries + 2) ≤ length file.now) }
    ensures { (result ≡ entry_at file.now j) × (result < 16) }
{
    let at = place(j);
    half_of(file[at], j)
}

// Entry j becomes v.
pub fn put(file: &mut [u8], j: usize, v: u8)
    requires j_bound { (j < 2 * block_entries) × (block_size * (j / block_entries + 2) ≤ length file.old) }
    requires v_bound { v < 16 }
    ensures { file.new ≡ set file.old (place_of j) (with_half (get_or file.old (place_of j) 0) (j % 2) v) }
{
    let at = place(j);
    file[at] = with_half(file[at], j, v);
}
