// The number and the check of each block.
ghost use Rattle.blocks.specs.Sizes.{block_size, long_file};
ghost use Rattle.std.specs.Prelude.{◌≡◌, ◌+◌, ◌*◌, ◌≤◌, ◌<◌, length};
ghost use Rattle.tables.specs.declared.refusal.Refusal.«TheVariants» as refusal;
ghost use Rattle.blocks.specs.Blocks.{length_out, block_broken, bad_block};
ghost use Rattle.checks.specs.Checks.{found, when};
ghost use Rattle.tables.specs.Refusals.{ended};

use crate::check::check_of;
use crate::letters::version_of;
use crate::sizes::{BLOCK, BODY, LONG_FILE, SHORT_FILE};
use checks::stage::unless;
use octets::numbers::number;
use tables::refusal::Refusal;

fn neither_length(n: usize) -> bool
    ensures { result ≡ length_out n }
{
    n != SHORT_FILE && n != LONG_FILE
}

// The first stage.
pub fn size(file: &[u8]) -> Result<(), Refusal>
    ensures { ended result ≡ when (length_out (length file.now)) refusal.FileLength }
{
    unless(neither_length(file.len()), Refusal::FileLength)
}

#[tactic(auto, unfolding(crate::specs::Blocks::block_broken))]
fn block_wrong(version: u64, file: &[u8], k: usize) -> bool
    requires { (k < 3) × (block_size * k + block_size ≤ length file.now) }
    ensures { result ≡ block_broken version file.now k }
{
    let at = BLOCK * k;
    number::<4>(file, at) != k as u64 || number::<4>(file, at + BODY) != check_of(version, file, at)
}

// The second stage: the lowest block that is wrong, where the letters of block 0 choose the check of all.
#[tactic(auto, using(crate::proofs::FoundLaws::found_none), unfolding(crate::specs::Blocks::bad_block))]
pub fn blocks(file: &[u8]) -> Result<(), Refusal>
    requires { (block_size ≤ length file.now) × (length file.now ≤ long_file) }
    ensures { ended result ≡ found refusal.Block (bad_block file.now) }
{
    let version = version_of(file);
    for k in 0..file.len() / BLOCK {
        unless(block_wrong(version, file, k), Refusal::Block(k as u64))?;
    }
    Ok(())
}
