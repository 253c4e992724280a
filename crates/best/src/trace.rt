// From the totals and the choices to the sequence.
ghost use Rattle.std.specs.Prelude.{◌+◌, ◌*◌, ◌≤◌, ◌<◌, length};
ghost use Rattle.tables.specs.Tables.{scratch_need};
ghost use Rattle.within.specs.Ways.{most_left};
ghost use Rattle.best.specs.Traced.{LeastLeft, traced, Followable, Retraced};

use checks::checked::Checked;
use tables::cells::number;
use trellis::choices::store;

// The least budget within which the least distortion is had: so that distortion's least rate, and every sequence that has the distortion
// within it has that rate.
pub fn least_left(cells: &[u32], row: usize, width: usize) -> usize
    requires { (1 ≤ width) × (row + width ≤ length cells.now) }
    ensures { LeastLeft row width result cells.now }
{
    let last = width - 1;
    let total = cells[row + last];
    for b in 0..last {
        if cells[row + b] == total {
            return b;
        }
    }
    last
}

// The sequence that the choices lead to is stored where a pass stores its own, which is before every choice that is still to be read.
pub fn retrace(t: &Checked, width: usize, left: usize, choices: &mut [u8])
    requires room { (scratch_need t.now.scans t.now.settings ≤ length choices.old) × ((left < width) × (width ≤ most_left)) }
    requires width_in_bounds { t.now.scans * (t.now.settings * width) ≤ length choices.old }
    requires followable { Followable t.now.settings left t.now.rates.now (traced t.now.scans t.now.settings width left t.now.rates.now choices.old) }
    ensures { Retraced t.now.scans t.now.settings (traced t.now.scans t.now.settings width left t.now.rates.now choices.old) choices.old choices.new }
{
    let settings = t.settings;
    let size = settings * width;
    let mut p = 0;
    let mut b = left;
    for i in 0..t.scans {
        let q = usize::from(choices[i * size + (p * width + b)]);
        let at = number(settings as u64, i as u64, p as u64, q as u64) as usize;
        let rate = t.rates[at] as usize;
        store(choices, settings, i, p, q);
        b -= rate;
        p = q;
    }
}
