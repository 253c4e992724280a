// The two passes that the calls are made of: the least-rate plan under a ceiling, and the plan at a multiplier. Each says whether there is
// one; its choices are then in scratch.
ghost use Rattle.std.specs.Prelude.{◌≡◌, ◌≤◌, length};
ghost use Rattle.tables.specs.Tables.{scratch_need};
ghost use Rattle.checks.specs.Given.{planning_in};
ghost use Rattle.keys.specs.OneKey.{Weighed};
ghost use Rattle.seek.specs.Sought.{ThriftyPass, MultiplierPass, no_ceiling};

use checks::checked::Checked;
use keys::cost::Ratio;
use keys::weigh::weigh;
use least::Rule;
use tables::limits::OVER_TOTAL;
use trellis::pass::pass;

// Above every distortion.
pub const NO_CEILING: u32 = 4294967295;

pub fn thrifty_pass(t: &Checked, ceiling: u32, scratch: &mut [u8]) -> bool
    requires { scratch_need t.now.scans t.now.settings ≤ length scratch.old }
    ensures { ThriftyPass (planning_in t.now) t.now.scans t.now.settings ceiling scratch.old scratch.new result }
{
    // Rates count first, distortions where rates tie: a total of distortion stays below this weight.
    let rule = Rule {
        a: 1,
        b: OVER_TOTAL,
        ceiling,
    };
    pass(t, rule, scratch)
}

// The weights of n/d as a rule with no ceiling.
fn weighing(at: Ratio) -> Rule
    ensures { Weighed at.n at.d result.a result.b × (result.ceiling ≡ no_ceiling) }
{
    let w = weigh(at);
    Rule {
        a: w.a as u32,
        b: w.b as u32,
        ceiling: NO_CEILING,
    }
}

pub fn multiplier_pass(t: &Checked, at: Ratio, scratch: &mut [u8]) -> bool
    requires { scratch_need t.now.scans t.now.settings ≤ length scratch.old }
    ensures { MultiplierPass (planning_in t.now) t.now.scans t.now.settings at.n at.d scratch.old scratch.new result }
{
    pass(t, weighing(at), scratch)
}
