// Average, budget B: the least multiplier whose multiplier plan has rate at most B, with its plan and its floor.
//
// The least-rate plan fits or nothing does. If the plan at multiplier zero is over B, each next plan is taken at the slope between the last
// that fits and the last that does not, and replaces the one on its side, until it costs what they do: then it is the plan, and the tie with
// the one over B shows that no smaller multiplier's plan fits.
ghost use Rattle.std.proofs.Math.Option.{none};
ghost use Rattle.std.specs.Prelude.{◌≤◌, length, Ok};
ghost use Rattle.tables.specs.Tables.{scratch_need};
ghost use Rattle.checks.specs.Planning.{Sound};
ghost use Rattle.checks.specs.Given.{asked_of, asked_in, planning_in};
ghost use Rattle.seek.specs.Sought.{ThriftyTotals};
ghost use Rattle.planner.specs.Given.{Delivered};
ghost use Rattle.promise.specs.Promise.{AveragePromise, IsAveragePlan, average_reply};

use checks::checked::Checked;
use checks::lent::Tables;
use floor::answer;
use keys::cost::Ratio;
use promise::AveragePlan;
use search::slopes::{Bracket, slopes};
use seek::finish::finish;
use seek::passes::multiplier_pass;
use seek::start::start;
use tables::refusal::Refusal;
use walk::{Totals, total_up};

// Where the least-rate plan, lo, fits: the plan at multiplier zero, or the slopes.
fn average_that_fits(
    t: &Checked,
    budget: u64,
    lo: Totals,
    plan: &mut [u8],
    scratch: &mut [u8],
) -> AveragePlan
    requires room { (scratch_need t.now.scans t.now.settings ≤ length scratch.old) × (t.now.scans ≤ length plan.old) }
    requires thrifty_totals { ThriftyTotals (planning_in t.now) budget lo }
    ensures { Delivered (IsAveragePlan (planning_in t.now) budget) t.now.scans t.now.settings plan.old scratch.old (average_reply (Ok result)) plan.new scratch.new }
{
    let zero = Ratio { n: 0, d: 1 };
    multiplier_pass(t, zero, scratch);
    let hi = total_up(t, scratch);
    if hi.rate.0 <= budget {
        let totals = finish(t, plan, scratch);
        return answer(zero, budget, totals);
    }
    let s = slopes(t, budget, Bracket { lo, hi }, scratch);
    let totals = finish(t, plan, scratch);
    answer(s, budget, totals)
}

// Where the checks have passed.
fn sound_average(
    t: &Checked,
    budget: u64,
    plan: &mut [u8],
    scratch: &mut [u8],
) -> Result<AveragePlan, Refusal>
    requires { Sound none (asked_in t.now (length plan.old) (length scratch.old)) }
    ensures { AveragePromise (asked_in t.now (length plan.old) (length scratch.old)) budget plan.old scratch.old result plan.new scratch.new }
{
    let lo = start(t, budget, scratch)?;
    Ok(average_that_fits(t, budget, lo, plan, scratch))
}

pub fn average_plan(
    tables: &Tables,
    budget: u64,
    plan: &mut [u8],
    scratch: &mut [u8],
) -> Result<AveragePlan, Refusal>
    ensures { AveragePromise (asked_of tables.now (length plan.old) (length scratch.old)) budget plan.old scratch.old result plan.new scratch.new }
{
    let t = tables.check(Ok(()), plan.len(), scratch.len())?;
    sound_average(&t, budget, plan, scratch)
}
