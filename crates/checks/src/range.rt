// Numbers out of their range.
ghost use Rattle.std.specs.Prelude.{◌≡◌};
ghost use Rattle.tables.specs.Refusals.{ended};
ghost use Rattle.checks.specs.Checks.{zero_or_over, first_refusal};
ghost use Rattle.checks.specs.Planning.{multiplier_out, range_checks};

use crate::stage::unless;
use tables::limits::{MOST_SETTINGS, MOST_TERM};
use tables::refusal::Refusal;

// Is the number outside 1 to most?
pub fn outside(most: u64, x: u64) -> bool
    ensures { result ≡ zero_or_over most x }
{
    x == 0 || most < x
}

// 4: n or d outside its range.
pub fn multiplier_outside(n: u64, d: u64) -> bool
    ensures { result ≡ multiplier_out n d }
{
    MOST_TERM < n || outside(MOST_TERM, d)
}

// 1, 2 and 3, where at most `most` scans are taken; `lawless` says that the law is none of those that the call takes.
pub fn ranges(most: u64, scans: u64, settings: u64, lawless: bool) -> Result<(), Refusal>
    ensures { ended result ≡ first_refusal (range_checks most scans settings lawless) }
{
    unless(outside(most, scans), Refusal::Scans)?;
    unless(outside(MOST_SETTINGS, settings), Refusal::Settings)?;
    unless(lawless, Refusal::StepLaw)
}
