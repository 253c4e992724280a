// The answer of an average plan: its multiplier in lowest terms, and its floor.
#![tactic(auto)]

ghost use Rattle.std.specs.Prelude.{◌≡◌, ◌+◌, ◌-◌, ◌*◌, ◌/◌, ◌≤◌, ◌<◌, ◌^◌};
ghost use Rattle.tables.specs.Limits.{most_total};
ghost use Rattle.floor.specs.Reduced.{Reduced};

use keys::cost::{Amount, Dist, Ratio, cost};
use promise::AveragePlan;
use tables::common::common;
use walk::Totals;

// The least F with d × F + n × B at least the cost.
fn floor(amount: Amount, at: Ratio, budget: u64) -> Dist
    requires { (amount.0 + at.d < 2 ^ 64) × (at.n * budget < 2 ^ 64) }
    ensures { result.0 ≡ (amount.0 - at.n * budget + (at.d - 1)) / at.d }
{
    let over = amount.0.saturating_sub(at.n * budget);
    Dist((over + (at.d - 1)) / at.d)
}

// The answer at n/d: in lowest terms, with the floor.
pub fn answer(at: Ratio, budget: u64, totals: Totals) -> AveragePlan
    requires rate_le_most_total { (totals.rate.0 ≤ most_total) × (totals.distortion.0 ≤ most_total) }
    requires budget_bound { at.n * budget < 2 ^ 64 }
    ensures { Reduced at.n at.d budget totals result }
{
    let g = common(at.n, at.d);
    let lowest = Ratio {
        n: at.n / g,
        d: at.d / g,
    };
    let amount = cost(totals.rate, totals.distortion, lowest.n, lowest.d);
    AveragePlan {
        n: lowest.n,
        d: lowest.d,
        floor: floor(amount, lowest, budget),
        totals,
    }
}
