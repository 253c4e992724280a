// Along the choices: what the sequence comes to, its settings handed over, and scratch wiped.
#![tactic(auto)]

ghost use Rattle.std.specs.Prelude.{◌≡◌, ◌++◌, ℕ, ◌+◌, ◌*◌, ◌≤◌, ◌<◌, ◌^◌, get_or, length, drop, replicate};
ghost use Rattle.tables.specs.Limits.{most_scans, most_settings};
ghost use Rattle.tables.specs.Tables.{scratch_need};
ghost use Rattle.trellis.specs.Choices.{chosen};
ghost use Rattle.checks.specs.Given.{planning_in};
ghost use Rattle.walk.specs.Walked.{TotalsOf};

use checks::checked::Checked;
use keys::cost::{Dist, Rate};
use tables::cells::{number, scratch_need};
use trellis::choices::read;

// What a sequence comes to.
#[derive(Clone, Copy)]
pub struct Totals {
    pub rate: Rate,
    pub distortion: Dist,
    pub peak: u64,
}

// The distortion that counts: a cell times the weight of its scan.
fn weighed(weight: u64, cell: Dist) -> Dist
    requires { (weight < 256) × (cell.0 < 2 ^ 32) }
    ensures { result.0 ≡ weight * cell.0 }
{
    Dist(weight * cell.0)
}

// The totals of the chosen sequence, which is allowed.
pub fn total_up(t: &Checked, scratch: &[u8]) -> Totals
    requires room { scratch_need t.now.scans t.now.settings ≤ length scratch.now }
    requires fact { (planning_in t.now).allowed (chosen t.now.settings t.now.scans scratch.now) }
    ensures { TotalsOf (planning_in t.now) (chosen t.now.settings t.now.scans scratch.now) result }
{
    let mut sums = Totals {
        rate: Rate(0),
        distortion: Dist(0),
        peak: 0,
    };
    let mut p: usize = 0;
    for i in 0..t.scans {
        let q = read(scratch, t.settings, i, p);
        let at = number(t.settings as u64, i as u64, p as u64, q as u64) as usize;
        let rate = sums.rate + Rate::from(t.rates[at]);
        // The distortion takes what counts of a cell, and the peak the plain cell.
        let plain = t.distortions[at];
        let cell = Dist::from(plain);
        let weight = t.weights[i];
        let counts = weighed(u64::from(weight), cell);
        sums = Totals {
            rate,
            distortion: sums.distortion + counts,
            peak: sums.peak.max(cell.0),
        };
        p = q;
    }
    sums
}

// The chosen sequence goes to the first bytes of the plan. This and the next ask the sizes alone, and not checked tables, which would ask more.
pub fn hand_over(scans: usize, settings: usize, scratch: &[u8], plan: &mut [u8])
    requires scans_le_most_scans { (scans ≤ most_scans) × ((settings ≤ most_settings) × ((scratch_need scans settings ≤ length scratch.now) × (scans ≤ length plan.old))) }
    requires by_index { (i : ℕ) → i < scans → get_or (chosen settings scans scratch.now) i 0 < settings }
    ensures { plan.new ≡ chosen settings scans scratch.now ++ drop scans plan.old }
{
    let mut p: usize = 0;
    for scan in 0..scans {
        let q = read(scratch, settings, scan, p);
        plan[scan] = q as u8;
        p = q;
    }
}

// The scratch of a call becomes zero.
pub fn wipe(scratch: &mut [u8], scans: usize, settings: usize)
    requires { (scans ≤ most_scans) × ((settings ≤ most_settings) × (scratch_need scans settings ≤ length scratch.old)) }
    ensures { scratch.new ≡ replicate (scratch_need scans settings) 0 ++ drop (scratch_need scans settings) scratch.old }
{
    let need = scratch_need(scans as u64, settings as u64) as usize;
    scratch[..need].fill(0);
}
