// The call: the checks of numbers and lengths, and then scan by scan.
ghost use Rattle.std.specs.Prelude.{◌≡◌};
ghost use Rattle.std.proofs.Math.Option.{none};
ghost use Rattle.fits.specs.Fits.{fits_refusal, fits_reply, FitsPromise};
ghost use Rattle.fits.specs.Given.{question_in};

use crate::asked::Asked;
use crate::step::{last_within, step};
use checks::check::plain_front;
use legal::judge_run;
use tables::law::no_law;
use tables::limits::{MOST_TOTAL, OVER_TOTAL};
use tables::refusal::Refusal;

// Scan by scan: each is judged whole before it is counted, and counted before the next is read.
fn scan_by_scan(asked: &Asked) -> Result<bool, Refusal>
    requires { fits_refusal (question_in asked.now) ≡ none }
    ensures { FitsPromise (question_in asked.now) (fits_reply result) }
{
    let settings = asked.settings as usize;
    // No total of a sequence is over the most that rates come to, so a larger budget asks no more than that.
    let limit = asked.budget.min(MOST_TOTAL) as u32;
    // Before scan 0 stands none, and 0 in its place: one row.
    let mut least = [OVER_TOTAL; 16];
    least[0] = 0;
    let mut reached = 1;
    let mut rows = 1;
    let mut from = 0;
    for scan in 0..asked.scans as usize {
        let to = from + rows * settings;
        judge_run(asked.rates, asked.distortions, from, to, 1)?;
        // Rows past those that are reached are judged, and not counted.
        least = step(asked, from, reached, scan, &least);
        reached = last_within(&least, settings, limit);
        if reached == 0 {
            return Ok(false);
        }
        rows = settings;
        from = to;
    }
    Ok(true)
}

// Whether some allowed sequence has a rate of at most the budget, of tables of any content.
pub fn fits(asked: &Asked) -> Result<bool, Refusal>
    ensures { FitsPromise (question_in asked.now) (fits_reply result) }
{
    plain_front(
        asked.scans,
        asked.settings,
        no_law(asked.law),
        asked.rates,
        asked.distortions,
    )?;
    scan_by_scan(asked)
}
