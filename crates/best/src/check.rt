// The checks of the call, in the documents' order: 1 with at most 64 scans, 2, 3, 19, 5, 6 and 7.
ghost use Rattle.std.specs.Prelude.{◌≡◌, ◌||◌, ltb, IfOk};
ghost use Rattle.tables.specs.Limits.{most_short_scans};
ghost use Rattle.tables.specs.Refusals.{ended};
ghost use Rattle.checks.specs.Given.{asked_of, IsOf};
ghost use Rattle.checks.specs.Stages.{CheckedBy};
ghost use Rattle.best.specs.Best.{budget_check, best_short};

use checks::checked::Checked;
use checks::lent::Tables;
use checks::stage::unless;
use tables::law::no_law;
use tables::limits::{MOST_SHORT_BUDGET, MOST_SHORT_SCANS};
use tables::refusal::Refusal;

// 6: one of three buffers shorter than needed.
fn too_short(
    scans: usize,
    choices_need: usize,
    totals_need: usize,
    plan: usize,
    choices: usize,
    totals: usize,
) -> bool
    ensures { result ≡ (ltb plan scans || (ltb choices choices_need || ltb totals totals_need)) }
{
    plan < scans || choices < choices_need || totals < totals_need
}

// `plan`, `choices` and `totals` are the lengths of the lent buffers. What is needed is multiplied where 1, 2 and 19 have passed.
pub fn check<'a>(
    tables: &Tables<'a>,
    budget: u64,
    plan: usize,
    choices: usize,
    totals: usize,
) -> Result<Checked<'a>, Refusal>
    ensures checked { CheckedBy most_short_scans (budget_check budget) (best_short tables.now.scans tables.now.settings budget plan choices totals) (asked_of tables.now plan choices) (ended result) }
    ensures same { IfOk result (IsOf tables.now) }
{
    let nineteenth = unless(MOST_SHORT_BUDGET < budget, Refusal::Budget);
    tables.front(MOST_SHORT_SCANS, no_law(tables.law), nineteenth)?;
    let size = tables.settings * (budget + 1);
    let short = too_short(
        tables.scans as usize,
        (tables.scans * size) as usize,
        (4 * size) as usize,
        plan,
        choices,
        totals,
    );
    unless(short, Refusal::Buffer)?;
    tables.judged()
}
