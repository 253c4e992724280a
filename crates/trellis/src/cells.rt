// The cells of a scan, which stand side by side in both tables, and what they weigh.
ghost use Rattle.std.specs.Prelude.{◌<◌};
ghost use Rattle.checks.specs.Given.{table_in};
ghost use Rattle.trellis.specs.Square.{CellsOf};

use checks::checked::Checked;
use tables::cells::number;

// Cells from `from` on, in a scan of this weight.
#[derive(Clone, Copy)]
pub struct Cells<'a> {
    pub rates: &'a [u32],
    pub distortions: &'a [u32],
    pub weight: u32,
    pub from: usize,
}

impl<'a> Cells<'a> {
    pub fn of_scan(t: &Checked<'a>, scan: usize) -> Cells<'a>
        requires { scan < t.now.scans }
        ensures { CellsOf (table_in t.now) scan result.weight result.from result.rates.now result.distortions.now }
    {
        Cells {
            rates: t.rates,
            distortions: t.distortions,
            weight: u32::from(t.weights[scan]),
            from: number(t.settings as u64, scan as u64, 0, 0) as usize,
        }
    }
}
