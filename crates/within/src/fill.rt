// All scans, from the last to the first.
ghost use Rattle.std.specs.Prelude.{◌+◌, ◌*◌, ◌≤◌, ◌<◌, length};
ghost use Rattle.tables.specs.Law.{law_of};
ghost use Rattle.checks.specs.Given.{table_in};
ghost use Rattle.trellis.specs.Square.{CellsFit};
ghost use Rattle.within.specs.Ways.{most_left};
ghost use Rattle.within.specs.Rows.{Fits, row_offer};
ghost use Rattle.within.specs.Filled.{Scanned, Filled};

use crate::row::{Place, put_all, row};
use checks::checked::Checked;
use std::mem::swap;
use tables::law::run;
use trellis::cells::Cells;

// One scan: a row for each setting before it.
fn scan(
    cells: &Cells,
    t: &Checked,
    width: usize,
    totals: &mut [u32],
    choices: &mut [u8],
    place: Place,
)
    requires cells { (width ≤ most_left) × CellsFit cells.now.weight cells.now.from (t.now.settings * t.now.settings) cells.now.rates.now cells.now.distortions.now }
    requires fits { Fits (t.now.settings * width) (t.now.settings * width) place.here place.ahead place.at totals.old choices.old }
    ensures { Scanned (law_of t.now.law) (λ p. row_offer cells.now.weight (cells.now.from + p * t.now.settings) width place.ahead cells.now.rates.now cells.now.distortions.now totals.old) t.now.settings width t.now.settings place.here place.at totals.old choices.old totals.new choices.new }
{
    for p in 0..t.settings {
        let after = Cells {
            from: cells.from + p * t.settings,
            ..*cells
        };
        row(
            &after,
            run(t.law, p, t.settings),
            width,
            totals,
            choices,
            place.along(p * width),
        );
    }
}

// The whole program: where the row of scan 0 stands in the totals. Two scans' rows take turns, the one being made and the one that lies ahead.
pub fn fill(t: &Checked, width: usize, choices: &mut [u8], totals: &mut [u32]) -> usize
    requires narrow { width ≤ most_left }
    requires room { (t.now.scans * (t.now.settings * width) ≤ length choices.old) × (2 * (t.now.settings * width) ≤ length totals.old) }
    ensures { Filled (table_in t.now) width result totals.old choices.old totals.new choices.new }
{
    let size = t.settings * width;
    // After the last scan nothing costs anything.
    put_all(totals, 0, size, 0);
    let mut ahead = 0;
    let mut here = size;
    for i in (1..t.scans).rev() {
        let cells = Cells::of_scan(t, i);
        let at = i * size;
        scan(&cells, t, width, totals, choices, Place { here, ahead, at });
        swap(&mut here, &mut ahead);
    }
    let first = Cells::of_scan(t, 0);
    row(
        &first,
        0..t.settings,
        width,
        totals,
        choices,
        Place { here, ahead, at: 0 },
    );
    here
}
