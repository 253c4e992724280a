// From a plan to its file: the fields of an average and of a minmax plan, with the mark of the weights that it was planned with. Every such
// plan that is given can be written.
#![tactic(auto)]

ghost use Rattle.std.specs.Prelude.{◌≡◌};
ghost use Rattle.filing.specs.Filing.{mark_of, average_fields, minmax_fields};

use checks::lent::Tables;
use keys::cost::Dist;
use promise::{AveragePlan, MinmaxPlan};
use rules::Fields;
use walk::Totals;

// The mark: 1 where some weight is not 1, otherwise 0. A number, as the file has it.
fn mark(weights: &[u8]) -> u64
    ensures { result ≡ mark_of weights.now }
{
    for weight in weights {
        if *weight != 1 {
            return 1;
        }
    }
    0
}

// What the files of both have: what the call was lent, and the totals of its plan; neither a multiplier nor a floor.
fn fields(kind: u64, tables: &Tables, budget: u64, totals: Totals) -> Fields
    ensures { result ≡ record (minmax_fields tables.now.scans tables.now.settings tables.now.law budget tables.now.weights.now (record { ceiling = 0; totals = totals })) { kind = kind } }
{
    Fields {
        scans: tables.scans,
        settings: tables.settings,
        law: tables.law,
        kind,
        budget,
        n: 0,
        d: 0,
        rate: totals.rate,
        distortion: totals.distortion,
        peak: totals.peak,
        floor: Dist(0),
        weighted: mark(tables.weights),
    }
}

// An average plan: kind 0, with its multiplier and its floor.
pub fn average_fields(tables: &Tables, budget: u64, plan: AveragePlan) -> Fields
    ensures { result ≡ average_fields tables.now.scans tables.now.settings tables.now.law budget tables.now.weights.now plan }
{
    Fields {
        n: plan.n,
        d: plan.d,
        floor: plan.floor,
        ..fields(0, tables, budget, plan.totals)
    }
}

// A minmax plan: kind 1.
pub fn minmax_fields(tables: &Tables, budget: u64, plan: MinmaxPlan) -> Fields
    ensures { result ≡ minmax_fields tables.now.scans tables.now.settings tables.now.law budget tables.now.weights.now plan }
{
    fields(1, tables, budget, plan.totals)
}
