// The check of a block, as the version of its file asks.
ghost use Rattle.std.specs.Prelude.{◌≡◌, ◌+◌, ◌≤◌, ◌<◌, ◌^◌, length, sum};
ghost use Rattle.octets.specs.Bytes.{part};
ghost use Rattle.blocks.specs.BlockCheck.{tilt, check_of};
ghost use Rattle.blocks.specs.Sizes.{block_size, body_size};

use crate::letters::QPL2;
use crate::sizes::BODY;

fn sum_of(body: &[u8]) -> u64
    requires { length body.now ≤ block_size }
    ensures { result ≡ sum body.now }
{
    body.iter().map(|b| u64::from(*b)).sum()
}

// The sum of k times the first of k bytes, k - 1 times the second, and so on: a byte is in every sum so far from its own on, so it is the sum
// of those sums, and takes no product.
fn tilt_of(body: &[u8]) -> u64
    requires { length body.now ≤ block_size }
    ensures { (result ≡ tilt (length body.now) body.now) × (result < 2 ^ 32) }
{
    let mut so_far = 0;
    let mut total = 0;
    for b in body {
        so_far += u64::from(*b);
        total += so_far;
    }
    total
}

// The check of the block that starts at `at`.
#[tactic(auto, unfolding(crate::specs::BlockCheck::check_of))]
pub fn check_of(version: u64, file: &[u8], at: usize) -> u64
    requires { at + body_size ≤ length file.now }
    ensures { result ≡ check_of version (part at body_size file.now) }
{
    let body = &file[at..at + BODY];
    if version == QPL2 {
        return 1 + tilt_of(body);
    }
    sum_of(body)
}
