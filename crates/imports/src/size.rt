// The numbers of a table, within their limits.
ghost use Rattle.std.specs.Prelude.{◌≡◌, false, ◌≤◌, ◌<◌};
ghost use Rattle.tables.specs.Limits.{most_scans, most_settings};
ghost use Rattle.tables.specs.Tables.{cells};
ghost use Rattle.imports.specs.Import.{out_of_range, cell_of};

use lines::says::Entry;
use tables::cells::{count, number};
use tables::limits::MOST_CELL;

#[derive(Clone, Copy)]
pub struct Size {
    pub scans: u64,
    pub settings: u64,
    ghost within: { (1 ≤ scans) × ((scans ≤ most_scans) × (settings ≤ most_settings)) },
}

impl Size {
    // The cells of one table.
    pub fn cells(self) -> usize
        ensures { result ≡ cells self.scans self.settings }
    {
        count(self.scans, self.settings) as usize
    }

    // 17: a number of a line is out of range.
    #[tactic(auto, unfolding(crate::specs::Import::out_of_range))]
    pub fn out_of_range(self, e: Entry) -> bool
        ensures { result ≡ out_of_range self.scans self.settings e }
    {
        self.scans <= e.scan
            || self.settings <= e.previous
            || self.settings <= e.setting
            || u64::from(MOST_CELL) < e.rate
            || u64::from(MOST_CELL) < e.distortion
    }

    // The cell that a line names.
    pub fn cell_of(self, e: Entry) -> usize
        requires { out_of_range self.scans self.settings e ≡ false }
        ensures { (result ≡ cell_of self.settings e) × (result < cells self.scans self.settings) }
    {
        number(self.settings, e.scan, e.previous, e.setting) as usize
    }
}
