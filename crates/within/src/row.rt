// One row of totals: after one setting, for every budget that may be left.
ghost use Rattle.std.specs.Prelude.{◌≡◌, ℕ, suc, ◌+◌, ◌*◌, ◌≤◌, ◌<◌, ◌^◌, get_or, length};
ghost use Rattle.tables.specs.Limits.{most_settings, most_cell};
ghost use Rattle.trellis.specs.Square.{CellsFit};
ghost use Rattle.within.specs.Ways.{no_way, most_left};
ghost use Rattle.within.specs.Rows.{AllPut, Taken, Fits, row_offer, RowMade};

use least::choose;
use std::ops::Range;
use tables::limits::OVER_TOTAL;
use trellis::cells::Cells;

// Where a row stands that is made: its totals from `here` on, its choices from `at` on; and in the totals, from `ahead` on, what lies ahead of it.
#[derive(Clone, Copy)]
pub struct Place {
    pub here: usize,
    pub ahead: usize,
    pub at: usize,
}

impl Place {
    // Of the same row from `by` places on, or of a row that stands so far behind it. The same lies ahead.
    pub fn along(self, by: usize) -> Place
        requires { (self.here + by < 2 ^ 64) × (self.at + by < 2 ^ 64) }
        ensures { result ≡ record self { here = self.here + by; at = self.at + by } }
    {
        Place {
            here: self.here + by,
            at: self.at + by,
            ..self
        }
    }
}

// One value for n cells.
pub fn put_all(cells: &mut [u32], from: usize, n: usize, value: u32)
    requires { from + n ≤ length cells.old }
    ensures { AllPut from n value cells.old cells.new }
{
    cells[from..from + n].fill(value);
}

// Totals and choices stay two parameters, as a call is lent them: a struct of the two would have to be made and borrowed anew at each call below.

// A setting of this distortion takes the places at which it offers less. Both numbers of a choice are at hand, so that it compiles to no branch.
fn relax(
    totals: &mut [u32],
    choices: &mut [u8],
    place: Place,
    n: usize,
    distortion: u32,
    setting: u8,
)
    requires { Fits n n place.here place.ahead place.at totals.old choices.old × (distortion ≤ most_cell) }
    ensures { Taken (λ j. distortion + get_or totals.old (place.ahead + j) 0) setting n place.here place.at totals.old choices.old totals.new choices.new }
{
    for j in 0..n {
        let offered = distortion + totals[place.ahead + j];
        let stands = totals[place.here + j];
        let wins = offered < stands;
        let chosen = choices[place.at + j];
        totals[place.here + j] = choose(wins, offered, stands);
        choices[place.at + j] = choose(wins, setting, chosen);
    }
}

// A setting offers at every place where its rate is not over what is left: a forbidden one at none.
fn consider(
    totals: &mut [u32],
    choices: &mut [u8],
    place: Place,
    width: usize,
    cells: &Cells,
    setting: usize,
)
    requires fits { Fits width (suc setting * width) place.here place.ahead place.at totals.old choices.old }
    requires cells { (setting < most_settings) × ((width ≤ most_left) × CellsFit cells.now.weight cells.now.from (suc setting) cells.now.rates.now cells.now.distortions.now) }
    requires capped { (j : ℕ) → j < width → get_or totals.old (place.here + j) 0 ≤ no_way }
    ensures { Taken (λ b. row_offer cells.now.weight cells.now.from width place.ahead cells.now.rates.now cells.now.distortions.now totals.old b setting) setting width place.here place.at totals.old choices.old totals.new choices.new }
{
    let taken = cells.rates[cells.from + setting] as usize;
    if taken < width {
        let counts = cells.weight * cells.distortions[cells.from + setting];
        let reached = Place {
            ahead: place.ahead + setting * width,
            ..place.along(taken)
        };
        relax(
            totals,
            choices,
            reached,
            width - taken,
            counts,
            setting as u8,
        );
    }
}

// The row after a setting whose next may be any of a run.
pub fn row(
    cells: &Cells,
    over: Range<usize>,
    width: usize,
    totals: &mut [u32],
    choices: &mut [u8],
    place: Place,
)
    requires over { (over.start ≤ over.end) × (over.end ≤ most_settings) }
    requires cells { (width ≤ most_left) × CellsFit cells.now.weight cells.now.from over.end cells.now.rates.now cells.now.distortions.now }
    requires fits { Fits width (over.end * width) place.here place.ahead place.at totals.old choices.old }
    ensures { RowMade (row_offer cells.now.weight cells.now.from width place.ahead cells.now.rates.now cells.now.distortions.now totals.old) width over.start over.end place.here place.at totals.old choices.old totals.new choices.new }
{
    // Where no way on is found yet stands more than any sequence comes to. A number and no `Option`: `totals` is lent, as cells of 32 bits.
    put_all(totals, place.here, width, OVER_TOTAL);
    for q in over.start..over.end {
        consider(totals, choices, place, width, cells, q);
    }
}
