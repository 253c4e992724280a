// One row: what each choice costs with what lies ahead of it, and the least of those in a run.
ghost use Rattle.std.specs.Prelude.{◌≡◌, ℕ, ◌+◌, ◌≤◌, ◌<◌, get_or, length};
ghost use Rattle.least.specs.Row.{price_of, candidate, Ready, Joins, RunOf, BestOf};

use crate::{Rule, choose};
use keys::cost::{Amount, Dist, Rate, cost};
use std::ops::Range;
use tables::limits::FORBIDDEN;

// No allowed sequence leads to the end: more than any sequence costs, and twice it still fits.
pub const NO_WAY: u64 = 4611686018427387904;

// What a choice costs: its cells are closed, so that a shut choice has a forbidden rate, and the distortion is what counts. Both arms are
// computed, so that the loop over a row has no branch.
fn price(rule: Rule, rate: u32, counted: u32) -> Amount
    ensures { result.0 ≡ price_of rule rate counted }
{
    let open = cost(
        Rate(u64::from(rate)),
        Dist(u64::from(counted)),
        u64::from(rule.b),
        u64::from(rule.a),
    );
    Amount(choose(rate == FORBIDDEN, NO_WAY, open.0))
}

// What each setting below hi costs from here to the end.
fn sums(
    row: &mut [u64; 16],
    rates: &[u32; 16],
    distortions: &[u32; 16],
    rule: Rule,
    keys: &[u64; 16],
    hi: usize,
)
    requires hi_bound { hi ≤ 16 }
    requires ready { Ready hi rates.now distortions.now keys.now }
    ensures by_index { (q : ℕ) → q < hi → get_or row.new q 0 ≡ candidate rule rates.now distortions.now keys.now q }
{
    for q in 0..hi {
        row[q] = price(rule, rates[q], distortions[q]).0 + keys[q];
    }
}

// The least of some candidates, and the first of them that attains it. Where there is none the key is NO_WAY: an `Option` would put a branch into
// each join.
#[derive(Clone, Copy)]
pub struct Run {
    pub key: Amount,
    pub first: usize,
}

impl Run {
    fn single(a: u64, q: usize) -> Run
        ensures { (result.key.0 ≡ a) × (result.first ≡ q) }
    {
        Run {
            key: Amount(a),
            first: q,
        }
    }

    // The least of this run of candidates and of another right after it, which wins only where it is less.
    fn join(self, next: Run) -> Run
        ensures { Joins self.key.0 self.first next.key.0 next.first result.key.0 result.first }
    {
        let wins = next.key.0 < self.key.0;
        Run {
            key: choose(wins, next.key, self.key),
            first: choose(wins, next.first, self.first),
        }
    }
}

// The least of two that stand side by side.
fn two(sums: &[u64; 16], q: usize) -> Run
    requires { q + 2 ≤ 16 }
    ensures { RunOf (λ k. get_or sums.now k 0) q (q + 2) result.key.0 result.first }
{
    Run::single(sums[q], q).join(Run::single(sums[q + 1], q + 1))
}

// The least of four, joined beside each other and not one after the other.
fn four(sums: &[u64; 16], q: usize) -> Run
    requires { q + 4 ≤ 16 }
    ensures { RunOf (λ k. get_or sums.now k 0) q (q + 4) result.key.0 result.first }
{
    two(sums, q).join(two(sums, q + 2))
}

// Four at a time, so that a turn waits for one comparison of the turn before.
fn least(sums: &[u64; 16], over: Range<usize>) -> Run
    requires { (over.start ≤ over.end) × (over.end ≤ 16) }
    ensures { BestOf (λ k. get_or sums.now k 0) over.start over.end result.key.0 result.first }
{
    let mut best = Run {
        key: Amount(NO_WAY),
        first: 0,
    };
    let fours = (over.end - over.start) / 4;
    let rest = over.start + 4 * fours;
    for k in 0..fours {
        best = best.join(four(sums, over.start + 4 * k));
    }
    for q in rest..over.end {
        best = best.join(Run::single(sums[q], q));
    }
    best
}

// The least of the settings of a run, with what lies ahead of each.
pub fn pick(
    row: &mut [u64; 16],
    rates: &[u32; 16],
    distortions: &[u32; 16],
    rule: Rule,
    keys: &[u64; 16],
    over: Range<usize>,
) -> Run
    requires over { (over.start ≤ over.end) × (over.end ≤ 16) }
    requires ready { Ready over.end rates.now distortions.now keys.now }
    ensures row_len { length row.new ≡ 16 }
    ensures best_of { BestOf (candidate rule rates.now distortions.now keys.now) over.start over.end result.key.0 result.first }
{
    // The settings below the run are priced with the others, for a loop that starts at 0 costs less than one that asks where to start.
    sums(row, rates, distortions, rule, keys, over.end);
    least(row, over)
}
