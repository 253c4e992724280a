// Where a cell stands.
ghost use Rattle.std.specs.Prelude.{◌≡◌, ◌≤◌, ◌<◌};
ghost use Rattle.tables.specs.Limits.{most_scans, most_settings};
ghost use Rattle.tables.specs.Tables.{cells, cell, scratch_need};

// The number of cells of one table.
pub fn count(scans: u64, settings: u64) -> u64
    requires { (1 ≤ scans) × ((scans ≤ most_scans) × (settings ≤ most_settings)) }
    ensures { result ≡ cells scans settings }
{
    settings + (scans - 1) * (settings * settings)
}

// The bytes of scratch that a planning call needs.
pub fn scratch_need(scans: u64, settings: u64) -> u64
    requires { (scans ≤ most_scans) × (settings ≤ most_settings) }
    ensures { (result ≡ scratch_need scans settings) × (result ≤ 16384) }
{
    scans * settings
}

// The number of a scan's cell, after the setting before it. (At scan 0 no setting stands before.)
pub fn number(settings: u64, scan: u64, before: u64, setting: u64) -> u64
    requires settings_le_most_settings { (settings ≤ most_settings) × (scan < most_scans) }
    requires before_lt_settings { (before < settings) × (setting < settings) }
    ensures { result ≡ cell settings scan before setting }
{
    if scan == 0 {
        return setting;
    }
    settings + (scan - 1) * (settings * settings) + before * settings + setting
}
