// One pass, from the last scan to the first.
ghost use Rattle.std.specs.Prelude.{◌≡◌, [], ℕ, suc, ◌≤◌, ◌<◌, get_or, length};
ghost use Rattle.tables.specs.Law.{law_of};
ghost use Rattle.tables.specs.Tables.{scratch_need};
ghost use Rattle.checks.specs.Given.{table_in};
ghost use Rattle.least.specs.Row.{Ready};
ghost use Rattle.trellis.specs.Stepped.{Stepped};
ghost use Rattle.trellis.specs.Pass.{PassOf, pass_problem};

use crate::cells::Cells;
use crate::choices::store;
use crate::square::{row_into, square_into};
use checks::checked::Checked;
use least::{NO_WAY, Rule, pick};
use tables::law::run;

// One scan, from its squares, which are closed and weighed: what lies ahead of each setting before it, and the choices.
fn step(
    rates: [[u32; 16]; 16],
    distortions: [[u32; 16]; 16],
    rule: Rule,
    t: &Checked,
    keys: &mut [u64; 16],
    scratch: &mut [u8],
    scan: usize,
)
    requires scan { scan < t.now.scans }
    requires room { scratch_need (suc scan) t.now.settings ≤ length scratch.old }
    requires ready { (p : ℕ) → p < t.now.settings → Ready t.now.settings (get_or rates p []) (get_or distortions p []) keys.old }
    ensures { Stepped rule (law_of t.now.law) t.now.settings scan rates distortions keys.old keys.new scratch.old scratch.new }
{
    let ahead = *keys;
    let mut row = [0u64; 16];
    for p in 0..t.settings {
        let best = pick(
            &mut row,
            &rates[p],
            &distortions[p],
            rule,
            &ahead,
            run(t.law, p, t.settings),
        );
        keys[p] = best.key.0;
        store(scratch, t.settings, scan, p, best.first);
    }
}

// The whole pass: is there a sequence under the ceiling? If so the choices in scratch lead along the best.
pub fn pass(t: &Checked, rule: Rule, scratch: &mut [u8]) -> bool
    requires room { scratch_need t.now.scans t.now.settings ≤ length scratch.old }
    ensures { PassOf (pass_problem rule.ceiling (table_in t.now)) t.now.scans t.now.settings rule scratch.old scratch.new result }
{
    let mut keys = [0u64; 16];
    let mut rate_square = [[0u32; 16]; 16];
    let mut counted_square = [[0u32; 16]; 16];
    for i in (1..t.scans).rev() {
        let cells = Cells::of_scan(t, i);
        square_into(
            &mut rate_square,
            &mut counted_square,
            &cells,
            rule.ceiling,
            t.settings,
        );
        step(rate_square, counted_square, rule, t, &mut keys, scratch, i);
    }
    let mut row = [0u64; 16];
    let mut first_rates = [0u32; 16];
    let mut first_counted = [0u32; 16];
    let first = Cells::of_scan(t, 0);
    row_into(
        &mut first_rates,
        &mut first_counted,
        &first,
        rule.ceiling,
        t.settings,
    );
    // Nothing stands before scan 0, so no law is asked there: every setting may.
    let end = t.settings;
    let best = pick(&mut row, &first_rates, &first_counted, rule, &keys, 0..end);
    store(scratch, t.settings, 0, 0, best.first);
    best.key.0 < NO_WAY
}
