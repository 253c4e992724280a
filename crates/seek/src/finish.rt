// The end of a call whose search has a plan or has none; one with a budget that cannot start ends in `start`. Only here is the plan buffer
// written.
ghost use Rattle.std.specs.Prelude.{◌≡◌, true, ℕ, ◌≤◌, ◌<◌, length, get_or};
ghost use Rattle.tables.specs.Limits.{most_scans, most_settings};
ghost use Rattle.tables.specs.Tables.{scratch_need};
ghost use Rattle.trellis.specs.Choices.{chosen};
ghost use Rattle.checks.specs.Given.{planning_in};
ghost use Rattle.seek.specs.Sought.{Closed, Finished};

use checks::checked::Checked;
use walk::{Totals, hand_over, total_up, wipe};

// A sequence that was found is handed over, and scratch is wiped either way. It asks the sizes alone: checked tables would ask more of a caller.
pub fn close(found: bool, scans: usize, settings: usize, plan: &mut [u8], scratch: &mut [u8])
    requires scans_le_most_scans { (scans ≤ most_scans) × ((settings ≤ most_settings) × ((scratch_need scans settings ≤ length scratch.old) × (scans ≤ length plan.old))) }
    requires i_bound { found ≡ true → (i : ℕ) → i < scans → get_or (chosen settings scans scratch.old) i 0 < settings }
    ensures { Closed found scans settings plan.old scratch.old plan.new scratch.new }
{
    if found {
        hand_over(scans, settings, scratch, plan);
    }
    wipe(scratch, scans, settings);
}

// The chosen sequence, which is allowed: its totals, its settings to the plan, and scratch wiped.
pub fn finish(t: &Checked, plan: &mut [u8], scratch: &mut [u8]) -> Totals
    requires room { (scratch_need t.now.scans t.now.settings ≤ length scratch.old) × (t.now.scans ≤ length plan.old) }
    requires fact { (planning_in t.now).allowed (chosen t.now.settings t.now.scans scratch.old) }
    ensures { Finished (planning_in t.now) t.now.scans t.now.settings plan.old scratch.old result plan.new scratch.new }
{
    let totals = total_up(t, scratch);
    close(true, t.scans, t.settings, plan, scratch);
    totals
}
