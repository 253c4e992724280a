// Calls whose answer buffer is the last thing asked for: the room question, the export, and the question whether something fits.
#![tactic(auto)]

ghost use Rattle.std.specs.Prelude.{◌≡◌, [], ◌∷◌, length};
ghost use Rattle.checks.specs.Checks.{or_answer};
ghost use Rattle.exports.specs.Export.{export_text, text_after};
ghost use Rattle.fits.specs.Given.{question_in};
ghost use Rattle.telling.specs.Parts.{answer_reply};
ghost use Rattle.lastly.specs.Lastly.{asked_last, room_told, export_told, FitsTold};

use checks::stage::unless;
use exports::export::export;
use fits::asked::Asked;
use fits::call::fits;
use room::room_for;
use tables::refusal::Refusal;
use telling::{export_answer, fits_answer, lent, room_answer};

// What the answers take.
const ROOM_BYTES: usize = 24;

const FITS_BYTES: usize = 8;

const EXPORT_BYTES: usize = 8;

// An answer that takes so many bytes, with the answer buffer as the last thing asked for.
fn asked_last<const N: usize>(
    told: Result<[u64; N], Refusal>,
    need: usize,
    answer: usize,
) -> Result<[u64; N], Refusal>
    ensures { answer_reply result ≡ asked_last need answer (answer_reply told.entry) }
{
    let values = told?;
    unless(answer < need, Refusal::Buffer)?;
    Ok(values)
}

// The room question, with the answer buffer as the last thing asked for.
pub fn room_told(
    channels: u64,
    scans: u64,
    settings: u64,
    answer: usize,
) -> Result<[u64; 3], Refusal>
    ensures { answer_reply result ≡ room_told channels scans settings answer }
{
    let told = room_answer(room_for(channels, scans, settings));
    asked_last(told, ROOM_BYTES, answer)
}

// Whether something fits, in the same way.
pub fn fits_told(asked: &Asked, answer: usize) -> Result<[u64; 1], Refusal>
    ensures { FitsTold (question_in asked.now) answer result }
{
    asked_last(fits_answer(fits(asked)), FITS_BYTES, answer)
}

// The export, with the answer buffer as part of 6. A short one counts as if no byte were lent for the text, so that none is written; it is
// asked for once more behind the export, since the text of tables that are forbidden throughout needs no byte.
pub fn export_told(
    scans: u64,
    settings: u64,
    rates: &[u32],
    distortions: &[u32],
    text: &mut [u8],
    answer: usize,
) -> Result<[u64; 1], Refusal>
    ensures result_value { answer_reply result ≡ or_answer (export_told scans settings rates.now distortions.now (length text.old) answer) (length (export_text scans settings rates.now distortions.now) ∷ []) }
    ensures text_after { text.new ≡ text_after (export_told scans settings rates.now distortions.now (length text.old) answer) scans settings rates.now distortions.now text.old }
{
    let room = lent(EXPORT_BYTES, answer, text.len());
    let told = export(scans, settings, rates, distortions, &mut text[..room]);
    asked_last(export_answer(told), EXPORT_BYTES, answer)
}
