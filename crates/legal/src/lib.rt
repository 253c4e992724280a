// The legality check: one walk over both tables together, cell by cell. A cell of either table is read at most once, into a local, and judged
// once, with the weight of its scan where it has one.
#![tactic(auto)]

ghost use Rattle.std.specs.Prelude.{◌≡◌, ◌↔◌, true, ◌+◌, ◌≤◌, ◌<◌, min, length};
ghost use Rattle.tables.specs.Limits.{most_cell};
ghost use Rattle.tables.specs.Legal.{LegalRate, LegalBeside, weights_by_scan, no_weights};
ghost use Rattle.tables.specs.Refusals.{ended};
ghost use Rattle.legal.specs.Judged.{Judged, RunJudged};
ghost use Rattle.legal.specs.Parts.{weight_limit, heavy_of, no_cell, RunWithin, ScansWithin, IfIllegal};

use tables::limits::{FORBIDDEN, MOST_CELL};
use tables::refusal::Refusal;

// No cell, in the place of how far into its run a cell stands. A number and no `Option`, which would put a branch into the loop over a run.
const NONE: u32 = 4294967295;

// What a cell is tested with, once for a run: its weight, but at least 1. So one product tells of the weighed distortion and of the plain one,
// which has to be in range too where the weight is 0.
fn heavy(weight: u32) -> u32
    ensures { result ≡ heavy_of weight }
{
    weight.max(1)
}

// A distortion out of range is taken as one that is just out of range, so that its product with a weight fits.
fn capped(distortion: u32) -> u32
    ensures { result ≡ min distortion (most_cell + 1) }
{
    distortion.min(MOST_CELL + 1)
}

// One cell of a scan: its rate, and the distortion beside it. Every test is made, whatever those before it told, so that the loop over a run has no branch.
fn legal(heavy: u32, rate: u32, distortion: u32) -> bool
    requires { (1 ≤ heavy) × (heavy < weight_limit) }
    ensures { (result ≡ true) ↔ (LegalRate rate × LegalBeside heavy rate distortion) }
{
    let tested = capped(distortion);
    (rate == FORBIDDEN) | ((rate <= MOST_CELL) & (heavy * tested <= MOST_CELL))
}

// How far into its run a cell stands, where it is illegal; otherwise NONE.
fn if_illegal(heavy: u32, rate: u32, distortion: u32, far: u32) -> u32
    requires { (1 ≤ heavy) × (heavy < weight_limit) }
    ensures { IfIllegal heavy rate distortion far result }
{
    if legal(heavy, rate, distortion) {
        return NONE;
    }
    far
}

// The cells from one number up to another, all of one weight. Each is read, whatever those before it held: a loop that leaves at the first
// illegal cell asks a branch of every cell, and that costs more than reading it.
pub fn judge_run(
    rates: &[u32],
    distortions: &[u32],
    from: usize,
    to: usize,
    weight: u32,
) -> Result<(), Refusal>
    requires { RunWithin (length rates.now) (length distortions.now) from to weight }
    ensures { RunJudged (λ k. weight) rates.now distortions.now from to (ended result) }
{
    let tested = heavy(weight);
    let cells = to - from;
    let mut lowest = NONE;
    for far in 0..cells {
        let k = from + far;
        let rate = rates[k];
        let distortion = distortions[k];
        let kept = if_illegal(tested, rate, distortion, far as u32);
        lowest = lowest.min(kept);
    }
    if lowest == NONE {
        return Ok(());
    }
    Err(Refusal::Cell((from + lowest as usize) as u64))
}

// All cells, where no scan has a weight.
pub fn judge_plain(rates: &[u32], distortions: &[u32]) -> Result<(), Refusal>
    requires { (length distortions.now ≡ length rates.now) × (length rates.now ≤ no_cell) }
    ensures { Judged no_weights rates.now distortions.now (ended result) }
{
    judge_run(rates, distortions, 0, rates.len(), 1)
}

// All cells, scan by scan: each scan is a run, with a weight of its own.
pub fn judge(
    rates: &[u32],
    distortions: &[u32],
    weights: &[u8],
    settings: usize,
) -> Result<(), Refusal>
    requires { ScansWithin (length weights.now) settings (length rates.now) (length distortions.now) }
    ensures { Judged (weights_by_scan settings weights.now) rates.now distortions.now (ended result) }
{
    let size = settings * settings;
    let mut from = 0;
    let mut to = settings;
    for weight in weights {
        judge_run(rates, distortions, from, to, u32::from(*weight))?;
        from = to;
        to += size;
    }
    Ok(())
}
