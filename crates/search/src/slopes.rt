// The slopes between the last plan that fits and the last that does not, until one ties.
ghost use Rattle.std.specs.Prelude.{◌≡◌, ◌+◌, ◌-◌, ◌*◌, ◌≤◌, ◌<◌, ◌^◌, eqb, length};
ghost use Rattle.tables.specs.Limits.{most_total};
ghost use Rattle.tables.specs.Tables.{scratch_need};
ghost use Rattle.checks.specs.Given.{planning_in};
ghost use Rattle.search.specs.Search.{Bracketed, SlopeOf, SlopeEnd, Narrowed};

use checks::checked::Checked;
use keys::cost::{Ratio, cost};
use seek::passes::multiplier_pass;
use walk::{Totals, total_up};

// The last plan that fits, and the last that does not.
#[derive(Clone, Copy)]
pub struct Bracket {
    pub lo: Totals,
    pub hi: Totals,
}

// How much distortion falls from lo to hi for how much rate.
fn slope_of(at: Bracket) -> Ratio
    requires order { (at.hi.distortion.0 ≤ at.lo.distortion.0) × (at.lo.rate.0 < at.hi.rate.0) }
    requires small { (at.lo.distortion.0 ≤ most_total) × (at.hi.rate.0 ≤ most_total) }
    ensures { SlopeOf at.lo at.hi result.n result.d }
{
    Ratio {
        n: at.lo.distortion.0 - at.hi.distortion.0,
        d: at.hi.rate.0 - at.lo.rate.0,
    }
}

// Do the two cost the same at this multiplier?
fn ties(a: Totals, b: Totals, at: Ratio) -> bool
    requires { (at.d * a.distortion.0 + at.n * a.rate.0 < 2 ^ 64) × (at.d * b.distortion.0 + at.n * b.rate.0 < 2 ^ 64) }
    ensures { result ≡ eqb (at.d * a.distortion.0 + at.n * a.rate.0) (at.d * b.distortion.0 + at.n * b.rate.0) }
{
    cost(a.rate, a.distortion, at.n, at.d) == cost(b.rate, b.distortion, at.n, at.d)
}

// A plan replaces the one on its side of the budget.
fn narrowed(at: Bracket, plan: Totals, budget: u64) -> Bracket
    ensures { Narrowed at plan budget result }
{
    if plan.rate.0 <= budget {
        Bracket { lo: plan, ..at }
    } else {
        Bracket { hi: plan, ..at }
    }
}

// The slopes, until one ties. The last plan's choices are then in scratch.
pub fn slopes(t: &Checked, budget: u64, start: Bracket, scratch: &mut [u8]) -> Ratio
    requires room { scratch_need t.now.scans t.now.settings ≤ length scratch.old }
    requires bracketed { Bracketed (planning_in t.now) budget start.lo start.hi }
    ensures { SlopeEnd (planning_in t.now) t.now.scans t.now.settings budget result.n result.d scratch.old scratch.new }
{
    let mut at = start;
    loop {
        let s = slope_of(at);
        multiplier_pass(t, s, scratch);
        let plan = total_up(t, scratch);
        if ties(plan, at.lo, s) {
            return s;
        }
        at = narrowed(at, plan, budget);
    }
}
