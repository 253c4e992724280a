// The second walk over a text that was judged: every line is written to its cell.
ghost use Rattle.std.specs.Prelude.{◌≡◌, List, [], ℕ, ◌≤◌, length};
ghost use Rattle.std.proofs.Math.Option.{none};
ghost use Rattle.tables.specs.Tables.{cells};
ghost use Rattle.lines.specs.Text.{lines};
ghost use Rattle.lines.specs.Parts.{said};
ghost use Rattle.imports.specs.Import.{fault, first_fault, with_said, rate_of, distortion_of, table_from};

use crate::left::lines_of;
use crate::size::Size;
use lines::says::Entry;

// One line that has no fault.
fn write_line(size: Size, line: Option<Entry>, rates: &mut [u32], distortions: &mut [u32])
    requires room { (cells size.scans size.settings ≤ length rates.old) × (cells size.scans size.settings ≤ length distortions.old) }
    requires faultless { (k : ℕ) × ((seen : List ℕ) × (fault size.scans size.settings k seen (said line) ≡ none)) }
    ensures rates_after { rates.new ≡ with_said rate_of size.settings rates.old (said line) }
    ensures distortions_after { distortions.new ≡ with_said distortion_of size.settings distortions.old (said line) }
{
    let Some(e) = line else {
        return;
    };
    let at = size.cell_of(e);
    rates[at] = e.rate as u32;
    distortions[at] = e.distortion as u32;
}

// All lines, of which none has a fault.
pub fn write(size: Size, text: &[u8], rates: &mut [u32], distortions: &mut [u32])
    requires room { (cells size.scans size.settings ≤ length rates.old) × (cells size.scans size.settings ≤ length distortions.old) }
    requires faultless { first_fault size.scans size.settings 1 [] (lines text.now) ≡ none }
    ensures rates_after { rates.new ≡ table_from rate_of size.settings rates.old (lines text.now) }
    ensures distortions_after { distortions.new ≡ table_from distortion_of size.settings distortions.old (lines text.now) }
{
    for line in lines_of(text) {
        write_line(size, line, rates, distortions);
    }
}
