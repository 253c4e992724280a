// The writer: the rules in order, and then the bytes.
ghost use Rattle.tables.specs.Limits.{most_scans};
ghost use Rattle.std.specs.Prelude.{◌≡◌, ℕ, ◌≤◌, ◌<◌, length, get_or};
ghost use Rattle.std.proofs.lemmas.List.Edits.{sets};
ghost use Rattle.tables.specs.Refusals.{ended};
ghost use Rattle.blocks.specs.Letters.{qpl2};
ghost use Rattle.blocks.specs.File.{file_length, file_of};
ghost use Rattle.planfile.specs.Writing.{write_short, write_of, write_reply, write_refusal, file_after};

use crate::lengths::{data_blocks, file_length};
use checks::stage::unless;
use entries::check_settings;
use puts::{put_data, put_header};
use rules::{Faults, Fields, rules};
use tables::refusal::Refusal;

// The settings slice is under N, or the buffer too short.
fn too_short(scans: u64, settings: u64, room: u64) -> bool
    ensures { result ≡ write_short scans settings room }
{
    settings < scans || room < file_length(scans)
}

// The whole file, block after block; its length.
fn put_file(file: &mut [u8], f: Fields, settings: &[u8]) -> u64
    requires scans_le_most_scans { (f.scans ≤ most_scans) × (file_length f.scans ≤ length file.old) }
    requires scans_in_bounds { (f.scans ≤ length settings.now) × ((j : ℕ) → j < f.scans → get_or settings.now j 0 < 16) }
    ensures { (result ≡ file_length f.scans) × (file.new ≡ sets file.old 0 (file_of qpl2 f settings.now)) }
{
    put_header(file, f);
    for b in 0..data_blocks(f.scans) {
        put_data(file, b as usize, &settings[..f.scans as usize]);
    }
    file_length(f.scans)
}

// The stages in document 01's order, where `room` bytes are lent. Each else hands on the refusal of the stage that stopped; no question mark
// stands here, since document 01 names this form.
#[tactic(auto, unfolding(crate::specs::Writing::write_refusal_under))]
fn stages(f: Fields, settings: &[u8], room: u64) -> Result<(), Refusal>
    ensures { ended result ≡ write_refusal f settings.now room }
{
    let headed = rules(Faults::default(), f);
    let Ok(()) = headed else {
        return headed;
    };
    let roomed = unless(
        too_short(f.scans, settings.len() as u64, room),
        Refusal::Buffer,
    );
    let Ok(()) = roomed else {
        return roomed;
    };
    let entered = check_settings(settings, f);
    let Ok(()) = entered else {
        return entered;
    };
    Ok(())
}

// Writes the file of a plan to the front of the lent buffer, and answers its length.
#[tactic(auto, unfolding(crate::specs::Writing::write_of))]
pub fn write_plan(f: Fields, settings: &[u8], file: &mut [u8]) -> Result<u64, Refusal>
    ensures result_value { write_reply result ≡ write_of f settings.now (length file.old) }
    ensures file_after { file.new ≡ file_after (write_refusal f settings.now (length file.old)) f settings.now file.old }
{
    let staged = stages(f, settings, file.len() as u64);
    let Err(refusal) = staged else {
        return Ok(put_file(file, f, settings));
    };
    Err(refusal)
}
