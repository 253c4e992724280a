// Minmax, budget B: the least X for which some allowed sequence has peak at most X and rate at most B; then the ceiling plan for that X.
ghost use Rattle.std.proofs.Math.Option.{none};
ghost use Rattle.std.specs.Prelude.{◌≤◌, length, Ok};
ghost use Rattle.tables.specs.Tables.{scratch_need};
ghost use Rattle.checks.specs.Planning.{Sound};
ghost use Rattle.checks.specs.Given.{asked_of, asked_in, planning_in};
ghost use Rattle.seek.specs.Sought.{ThriftyTotals};
ghost use Rattle.planner.specs.Given.{Delivered};
ghost use Rattle.promise.specs.Promise.{MinmaxPromise, IsMinmaxPlan, minmax_reply};

use checks::checked::Checked;
use checks::lent::Tables;
use promise::MinmaxPlan;
use search::halving::least_ceiling;
use seek::finish::finish;
use seek::passes::thrifty_pass;
use seek::start::start;
use tables::refusal::Refusal;
use walk::Totals;

// Where the least-rate plan fits.
fn minmax_that_fits(
    t: &Checked,
    budget: u64,
    thriftiest: Totals,
    plan: &mut [u8],
    scratch: &mut [u8],
) -> MinmaxPlan
    requires room { (scratch_need t.now.scans t.now.settings ≤ length scratch.old) × (t.now.scans ≤ length plan.old) }
    requires thrifty_totals { ThriftyTotals (planning_in t.now) budget thriftiest }
    ensures { Delivered (IsMinmaxPlan (planning_in t.now) budget) t.now.scans t.now.settings plan.old scratch.old (minmax_reply (Ok result)) plan.new scratch.new }
{
    let ceiling = least_ceiling(t, budget, thriftiest.peak as u32, scratch);
    thrifty_pass(t, ceiling, scratch);
    let totals = finish(t, plan, scratch);
    MinmaxPlan {
        ceiling: u64::from(ceiling),
        totals,
    }
}

// Where the checks have passed.
fn sound_minmax(
    t: &Checked,
    budget: u64,
    plan: &mut [u8],
    scratch: &mut [u8],
) -> Result<MinmaxPlan, Refusal>
    requires { Sound none (asked_in t.now (length plan.old) (length scratch.old)) }
    ensures { MinmaxPromise (asked_in t.now (length plan.old) (length scratch.old)) budget plan.old scratch.old result plan.new scratch.new }
{
    let thriftiest = start(t, budget, scratch)?;
    Ok(minmax_that_fits(t, budget, thriftiest, plan, scratch))
}

pub fn minmax_plan(
    tables: &Tables,
    budget: u64,
    plan: &mut [u8],
    scratch: &mut [u8],
) -> Result<MinmaxPlan, Refusal>
    ensures { MinmaxPromise (asked_of tables.now (length plan.old) (length scratch.old)) budget plan.old scratch.old result plan.new scratch.new }
{
    let t = tables.check(Ok(()), plan.len(), scratch.len())?;
    sound_minmax(&t, budget, plan, scratch)
}
