// How a call with a budget starts.
ghost use Rattle.std.specs.Prelude.{◌≤◌, length};
ghost use Rattle.tables.specs.Tables.{scratch_need};
ghost use Rattle.checks.specs.Given.{planning_in};
ghost use Rattle.seek.specs.Started.{StartedAs, start_reply};

use crate::passes::{NO_CEILING, thrifty_pass};
use checks::checked::Checked;
use tables::refusal::Refusal;
use walk::{Totals, total_up, wipe};

// How a call with a budget starts: the totals of the least-rate plan, which fits, or a refusal with scratch wiped.
pub fn start(t: &Checked, budget: u64, scratch: &mut [u8]) -> Result<Totals, Refusal>
    requires { scratch_need t.now.scans t.now.settings ≤ length scratch.old }
    ensures { StartedAs (planning_in t.now) t.now.scans t.now.settings budget scratch.old scratch.new (start_reply result) }
{
    if !thrifty_pass(t, NO_CEILING, scratch) {
        wipe(scratch, t.scans, t.settings);
        return Err(Refusal::NoSequence);
    }
    let totals = total_up(t, scratch);
    if budget < totals.rate.0 {
        wipe(scratch, t.scans, t.settings);
        return Err(Refusal::NoneWithin);
    }
    Ok(totals)
}
