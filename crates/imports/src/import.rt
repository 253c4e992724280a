// Import: the checks, the first walk, and where no line has a fault the second.
ghost use Rattle.std.specs.Prelude.{◌≡◌, ◌||◌, [], ◌≤◌, ltb, length, IfOk};
ghost use Rattle.std.proofs.Math.Option.{none};
ghost use Rattle.tables.specs.Limits.{forbidden};
ghost use Rattle.tables.specs.Tables.{cells};
ghost use Rattle.tables.specs.Refusals.{ended};
ghost use Rattle.lines.specs.Text.{lines};
ghost use Rattle.imports.specs.Import.{early_import, first_fault, filled, import_of, table_from, rate_of, distortion_of};

use crate::judge::judge;
use crate::size::Size;
use crate::write::write;
use checks::range::ranges;
use checks::stage::unless;
use tables::limits::{FORBIDDEN, MOST_SCANS};
use tables::refusal::Refusal;

// A table or scratch shorter than the cells of one table.
fn too_short(cells: usize, rates: usize, distortions: usize, scratch: usize) -> bool
    ensures { result ≡ (ltb rates cells || (ltb distortions cells || ltb scratch cells)) }
{
    rates < cells || distortions < cells || scratch < cells
}

// 1, 2 and 6.
fn early(
    scans: u64,
    settings: u64,
    rates: usize,
    distortions: usize,
    scratch: usize,
) -> Result<Size, Refusal>
    ensures refusal { ended result ≡ early_import scans settings rates distortions scratch }
    ensures same { IfOk result (λ s. (s.scans ≡ scans) × (s.settings ≡ settings)) }
{
    ranges(MOST_SCANS, scans, settings, false)?;
    let size = Size { scans, settings };
    unless(
        too_short(size.cells(), rates, distortions, scratch),
        Refusal::Buffer,
    )?;
    Ok(size)
}

// Every line judged, in a scratch of any content, which is zero after it.
fn judged(size: Size, text: &[u8], scratch: &mut [u8]) -> Result<(), Refusal>
    requires { cells size.scans size.settings ≤ length scratch.old }
    ensures { (ended result ≡ first_fault size.scans size.settings 1 [] (lines text.now)) × (scratch.new ≡ filled (cells size.scans size.settings) 0 scratch.old) }
{
    let need = size.cells();
    scratch[..need].fill(0);
    let judged = judge(size, text, scratch);
    scratch[..need].fill(0);
    judged
}

// Both tables anew, from lines of which none has a fault.
fn written(size: Size, text: &[u8], rates: &mut [u32], distortions: &mut [u32])
    requires room { (cells size.scans size.settings ≤ length rates.old) × (cells size.scans size.settings ≤ length distortions.old) }
    requires faultless { first_fault size.scans size.settings 1 [] (lines text.now) ≡ none }
    ensures rates_after { rates.new ≡ table_from rate_of size.settings (filled (cells size.scans size.settings) forbidden rates.old) (lines text.now) }
    ensures distortions_after { distortions.new ≡ table_from distortion_of size.settings (filled (cells size.scans size.settings) 0 distortions.old) (lines text.now) }
{
    let need = size.cells();
    rates[..need].fill(FORBIDDEN);
    distortions[..need].fill(0);
    write(size, text, rates, distortions);
}

// Imports a text of any bytes.
pub fn import(
    scans: u64,
    settings: u64,
    text: &[u8],
    rates: &mut [u32],
    distortions: &mut [u32],
    scratch: &mut [u8],
) -> Result<(), Refusal>
    ensures result_value { ended result ≡ (import_of scans settings text.now rates.old distortions.old scratch.old).ends }
    ensures rates_after { rates.new ≡ (import_of scans settings text.now rates.old distortions.old scratch.old).rates }
    ensures distortions_after { distortions.new ≡ (import_of scans settings text.now rates.old distortions.old scratch.old).distortions }
    ensures scratch_after { scratch.new ≡ (import_of scans settings text.now rates.old distortions.old scratch.old).scratch }
{
    let size = early(
        scans,
        settings,
        rates.len(),
        distortions.len(),
        scratch.len(),
    )?;
    judged(size, text, scratch)?;
    written(size, text, rates, distortions);
    Ok(())
}
