// One scan of the pass: from the least rates before it to those behind it.
ghost use Rattle.std.specs.Prelude.{◌≡◌, ℕ, ◌+◌, ◌*◌, ◌≤◌, ◌<◌, length, get_or};
ghost use Rattle.tables.specs.Limits.{most_settings, over_total};
ghost use Rattle.tables.specs.Law.{law_of, Follows, SideBySide};
ghost use Rattle.fits.specs.Reach.{RowTaken, ScanTaken, LastWithin};

use crate::asked::Asked;
use std::ops::Range;
use tables::law::run;
use tables::limits::OVER_TOTAL;

// One row: the settings of the span after one that `before` leads to. Its cells stand from `at` on, and no other is read.
fn row(rates: &[u32], at: usize, before: u32, span: Range<usize>, least: &mut [u32; 16])
    requires { (span.start ≤ span.end) × ((span.end ≤ most_settings) × ((at + span.end ≤ length rates.now) × (before ≤ over_total))) }
    ensures { RowTaken rates.now at before span.start span.end least.old least.new }
{
    for q in span.start..span.end {
        let sum = before + rates[at + q].min(OVER_TOTAL);
        least[q] = least[q].min(sum);
    }
}

// The settings that may follow one at a scan: at scan 0 all.
fn following(scan: usize, law: u64, before: usize, settings: usize) -> Range<usize>
    requires { (before < settings) × (settings ≤ most_settings) }
    ensures { SideBySide (Follows (law_of law) scan) before settings result.start result.end }
{
    if scan == 0 {
        0..settings
    } else {
        run(law, before, settings)
    }
}

// A scan whose cells stand from `at` on, in a row for each setting before it: the first rows of it, since those behind them lead nowhere.
pub fn step(asked: &Asked, at: usize, rows: usize, scan: usize, least: &[u32; 16]) -> [u32; 16]
    requires rows_le_settings { (rows ≤ asked.now.settings) × ((asked.now.settings ≤ most_settings) × (at + rows * asked.now.settings ≤ length asked.now.rates.now)) }
    requires by_index { (p : ℕ) → p < asked.now.settings → get_or least.now p 0 ≤ over_total }
    ensures { ScanTaken (Follows (law_of asked.now.law) scan) asked.now.rates.now asked.now.settings at rows least.now result }
{
    let settings = asked.settings as usize;
    let mut next = [OVER_TOTAL; 16];
    for p in 0..rows {
        let span = following(scan, asked.law, p, settings);
        row(asked.rates, at + p * settings, least[p], span, &mut next);
    }
    next
}

// How many settings there are up to the last whose total is within the limit: 0 where none is.
pub fn last_within(least: &[u32; 16], settings: usize, limit: u32) -> usize
    requires { settings ≤ most_settings }
    ensures { LastWithin settings limit least.now result }
{
    least[..settings]
        .iter()
        .rposition(|total| *total <= limit)
        .map_or(0, |last| last + 1)
}
