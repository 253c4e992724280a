// The call. It asks nothing of its caller: tables, lengths, buffers and the budget may have any content.
ghost use Rattle.std.specs.Prelude.{List, ℕ, ◌≤◌, length};
ghost use Rattle.criteria.specs.Choice.{InBudget};
ghost use Rattle.tables.specs.Limits.{most_short_budget};
ghost use Rattle.tables.specs.Tables.{scratch_need};
ghost use Rattle.checks.specs.Given.{asked_of, asked_in, planning_in};
ghost use Rattle.best.specs.Best.{choices_need, totals_need, BestSound, BestPromise};
ghost use Rattle.best.specs.Traced.{BestGiven, BothFramed, SoughtBest};

use crate::check::check;
use crate::trace::{least_left, retrace};
use checks::checked::Checked;
use checks::lent::Tables;
use octets::numbers::put_zeros;
use seek::finish::finish;
use seek::start::start;
use tables::refusal::Refusal;
use walk::Totals;
use within::fill::fill;
use within::row::put_all;

// Where some sequence is within the budget: the totals of the true best, which is handed over.
fn best_that_fits(
    t: &Checked,
    budget: usize,
    plan: &mut [u8],
    choices: &mut [u8],
    cells: &mut [u32],
) -> Totals
    requires room { (scratch_need t.now.scans t.now.settings ≤ length choices.old) × ((t.now.scans ≤ length plan.old) × (budget ≤ most_short_budget)) }
    requires budget_in_bounds { (choices_need t.now.scans t.now.settings budget ≤ length choices.old) × (totals_need t.now.settings budget ≤ length cells.old) }
    requires by_index { (s : List ℕ) × InBudget (planning_in t.now) budget s }
    ensures best_given { BestGiven (planning_in t.now) t.now.scans budget plan.old result plan.new }
    ensures both_framed { BothFramed t.now.scans t.now.settings budget choices.old cells.old choices.new cells.new }
{
    let width = budget + 1;
    let row = fill(t, width, choices, cells);
    let left = least_left(cells, row, width);
    retrace(t, width, left, choices);
    finish(t, plan, choices)
}

// Where the checks have passed, but for what is to be zero: a plan that fits, or a look past the budget. Totals within it cannot tell 8 from 9.
fn sought(
    t: &Checked,
    budget: usize,
    plan: &mut [u8],
    choices: &mut [u8],
    cells: &mut [u32],
) -> Result<Totals, Refusal>
    requires { BestSound (asked_in t.now (length plan.old) (length choices.old)) budget (length cells.old) }
    ensures { SoughtBest (asked_in t.now (length plan.old) (length choices.old)) budget plan.old choices.old cells.old result plan.new choices.new cells.new }
{
    start(t, budget as u64, choices)?;
    Ok(best_that_fits(t, budget, plan, choices, cells))
}

// Where the checks have passed.
fn sound_best(
    t: &Checked,
    budget: usize,
    plan: &mut [u8],
    choices: &mut [u8],
    cells: &mut [u32],
) -> Result<Totals, Refusal>
    requires { BestSound (asked_in t.now (length plan.old) (length choices.old)) budget (length cells.old) }
    ensures { BestPromise (asked_in t.now (length plan.old) (length choices.old)) budget plan.old choices.old cells.old result plan.new choices.new cells.new }
{
    let size = t.settings * (budget + 1);
    let answer = sought(t, budget, plan, choices, cells);
    put_zeros(choices, 0, t.scans * size);
    put_all(cells, 0, 4 * size, 0);
    answer
}

pub fn best_plan(
    tables: &Tables,
    budget: u64,
    plan: &mut [u8],
    choices: &mut [u8],
    cells: &mut [u32],
) -> Result<Totals, Refusal>
    ensures { BestPromise (asked_of tables.now (length plan.old) (length choices.old)) budget plan.old choices.old cells.old result plan.new choices.new cells.new }
{
    let t = check(tables, budget, plan.len(), choices.len(), cells.len())?;
    sound_best(&t, budget as usize, plan, choices, cells)
}
