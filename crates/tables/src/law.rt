// The step laws, by number: which numbers are laws, what each allows, and the run of settings that it lets follow one. Nothing else in this
// library knows a law's number. Laws stay numbers: any number may be asked, and one that is no law allows nothing.
ghost use Rattle.std.specs.Prelude.{◌≡◌, ◌≤◌, ◌<◌};
ghost use Rattle.tables.specs.Limits.{most_settings};
ghost use Rattle.tables.specs.Law.{law_of, allows, law_out, SideBySide};

use std::ops::Range;

// Is this no law's number?
pub fn no_law(law: u64) -> bool
    ensures { result ≡ law_out law }
{
    !matches!(law, 0..=2)
}

// May this setting follow that one?
pub fn keeps(law: u64, before: u64, setting: u64) -> bool
    ensures { result ≡ allows law before setting }
{
    match law {
        0 => true,
        1 => before.abs_diff(setting) <= 2,
        2 => setting.saturating_sub(before) <= 2,
        _ => false,
    }
}

// The settings that may follow one lie side by side, under every law.
pub fn run(law: u64, before: usize, settings: usize) -> Range<usize>
    requires { (before < settings) × (settings ≤ most_settings) }
    ensures { SideBySide (law_of law) before settings result.start result.end }
{
    // Law 0 returns by itself: as an arm beside the others it had the pass of `qpl_fits` take a quarter more instructions at Q 16.
    if law == 0 {
        return 0..settings;
    }
    // Two finer, and the end of two coarser.
    let finest = before.saturating_sub(2);
    let end = (before + 3).min(settings);
    match law {
        1 => finest..end,
        2 => 0..end,
        _ => 0..0,
    }
}
