// The choices of a pass, in scratch: of each scan, after each setting that may stand before it. Nothing else knows where a choice stands.
ghost use Rattle.std.specs.Prelude.{◌≡◌, suc, ◌+◌, ◌*◌, ◌≤◌, ◌<◌, length};
ghost use Rattle.tables.specs.Limits.{most_scans, most_settings};
ghost use Rattle.tables.specs.Tables.{scratch_need};
ghost use Rattle.trellis.specs.Choices.{choice, ChoiceStored};

// The three numbers that name a choice stay parameters: nothing keeps them, and a struct of them would be made at a call to be taken apart in it.
fn place(settings: usize, scan: usize, before: usize) -> usize
    requires { (settings ≤ most_settings) × ((scan < most_scans) × (before < settings)) }
    ensures { result ≡ scan * settings + before }
{
    scan * settings + before
}

// What is chosen at a scan after the setting before it is stored.
pub fn store(scratch: &mut [u8], settings: usize, scan: usize, before: usize, chosen: usize)
    requires settings_le_most_settings { (settings ≤ most_settings) × ((scan < most_scans) × (before < settings)) }
    requires chosen_bound { (chosen < 256) × (scratch_need (suc scan) settings ≤ length scratch.old) }
    ensures { ChoiceStored settings scan before chosen scratch.old scratch.new }
{
    let at = place(settings, scan, before);
    scratch[at] = chosen as u8;
}

// It is read back.
pub fn read(scratch: &[u8], settings: usize, scan: usize, before: usize) -> usize
    requires settings_le_most_settings { (settings ≤ most_settings) × ((scan < most_scans) × (before < settings)) }
    requires settings_in_bounds { scratch_need (suc scan) settings ≤ length scratch.now }
    ensures { (result ≡ choice settings scratch.now scan before) × (result < 256) }
{
    let at = place(settings, scan, before);
    usize::from(scratch[at])
}
