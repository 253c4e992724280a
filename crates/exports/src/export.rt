// Export: the checks, the length, and then the bytes.
ghost use Rattle.std.specs.Prelude.{◌≡◌, ◌*◌, ◌≤◌, length};
ghost use Rattle.std.proofs.lemmas.List.Edits.{sets};
ghost use Rattle.tables.specs.Tables.{cells};
ghost use Rattle.tables.specs.Legal.{LegalRate, LegalBeside};
ghost use Rattle.tables.specs.Refusals.{ended};
ghost use Rattle.checks.specs.Checks.{first_refusal};
ghost use Rattle.exports.specs.Parts.{Placed};
ghost use Rattle.exports.specs.Export.{early_checks, cell_line, export_text, export_of, export_reply, Exportable};
ghost use Rattle.exports.specs.Shown.{text_of};

use crate::line::Line;
use crate::place::{FIRST, Place, next};
use checks::check::plain_front;
use legal::judge_plain;
use tables::limits::FORBIDDEN;
use tables::refusal::Refusal;

// 1, 2, 5 and 7.
fn early(scans: u64, settings: u64, rates: &[u32], distortions: &[u32]) -> Result<(), Refusal>
    ensures { ended result ≡ first_refusal (early_checks scans settings rates.now distortions.now) }
{
    plain_front(scans, settings, false, rates, distortions)?;
    judge_plain(rates, distortions)
}

// The line of a cell: none where it is forbidden.
fn line_of(place: Place, rate: u32, distortion: u32) -> Option<Line>
    requires { Placed place × (LegalRate rate × LegalBeside 1 rate distortion) }
    ensures { text_of result ≡ cell_line place rate distortion }
{
    if rate == FORBIDDEN {
        return None;
    }
    Some(Line {
        place,
        rate: u64::from(rate),
        distortion: u64::from(distortion),
    })
}

// The length of the whole text.
fn measure(scans: u64, settings: u64, rates: &[u32], distortions: &[u32]) -> usize
    requires { Exportable scans settings rates.now distortions.now }
    ensures { (result ≡ length (export_text scans settings rates.now distortions.now)) × (result ≤ 28 * cells scans settings) }
{
    let mut total = 0;
    let mut p = FIRST;
    for (rate, distortion) in rates.iter().zip(distortions) {
        if let Some(line) = line_of(p, *rate, *distortion) {
            total += line.len();
        }
        p = next(settings, p);
    }
    total
}

// The whole text, to the front of the buffer.
fn put_all(scans: u64, settings: u64, rates: &[u32], distortions: &[u32], text: &mut [u8])
    requires exportable { Exportable scans settings rates.now distortions.now }
    requires distortions_in_bounds { length (export_text scans settings rates.now distortions.now) ≤ length text.old }
    ensures { text.new ≡ sets text.old 0 (export_text scans settings rates.now distortions.now) }
{
    let mut at = 0;
    let mut p = FIRST;
    for (rate, distortion) in rates.iter().zip(distortions) {
        if let Some(line) = line_of(p, *rate, *distortion) {
            at = line.put(text, at);
        }
        p = next(settings, p);
    }
}

// Exports tables of any content. The length is known before a byte is written.
pub fn export(
    scans: u64,
    settings: u64,
    rates: &[u32],
    distortions: &[u32],
    text: &mut [u8],
) -> Result<u64, Refusal>
    ensures result_value { export_reply result ≡ (export_of scans settings rates.now distortions.now text.old).reply }
    ensures text_after { text.new ≡ (export_of scans settings rates.now distortions.now text.old).text }
{
    early(scans, settings, rates, distortions)?;
    let n = measure(scans, settings, rates, distortions);
    if text.len() < n {
        return Err(Refusal::Buffer);
    }
    put_all(scans, settings, rates, distortions, text);
    Ok(n as u64)
}
