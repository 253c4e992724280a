// The reader: its stages in order, and then the settings.
ghost use Rattle.blocks.specs.Sizes.{block_size, block_entries};
ghost use Rattle.std.specs.Prelude.{◌≡◌, ℕ, ◌+◌, ◌*◌, ◌/◌, ◌≤◌, ◌<◌, length};
ghost use Rattle.blocks.specs.File.{entry_at};
ghost use Rattle.tables.specs.Refusals.{ended};
ghost use Rattle.planfile.specs.Reading.{entries, read_of, read_reply, read_refusal, settings_after};

use crate::header::{fields, header};
use blocks::letters::version_of;
use blocks::packed::get;
use blocks::sound::{blocks, size};
use checks::stage::unless;
use entries::check_file;
use rules::Fields;
use tables::refusal::Refusal;

// What a file says: the fields of its plan, and its version, which is none of them.
#[derive(Drop)]
pub struct PlanRead {
    pub fields: Fields,
    pub version: u64,
}

// The first entries go to the settings, one to each.
fn hand_over(file: &[u8], settings: &mut [u8])
    requires few { length settings.old ≤ 2 * block_entries }
    requires there { (j : ℕ) → j < length settings.old → block_size * (j / block_entries + 2) ≤ length file.now }
    ensures { settings.new ≡ entries (entry_at file.now) 0 (length settings.old) }
{
    // By index: of what is written through `iter_mut` a proof knows the length alone.
    for j in 0..settings.len() {
        settings[j] = get(file, j);
    }
}

// The stages in document 01's order, where `room` settings are lent. Each else hands on the refusal of the stage that stopped; no question
// mark stands here, since document 01 names this form.
#[tactic(auto, unfolding(crate::specs::Reading::read_refusal_under, crate::specs::Reading::bad_entry_under))]
fn stages(file: &[u8], room: u64) -> Result<(), Refusal>
    ensures { ended result ≡ read_refusal file.now room }
{
    let sized = size(file);
    let Ok(()) = sized else {
        return sized;
    };
    let blocked = blocks(file);
    let Ok(()) = blocked else {
        return blocked;
    };
    let f = fields(file);
    let headed = header(file, f);
    let Ok(()) = headed else {
        return headed;
    };
    let roomed = unless(room < f.scans, Refusal::Buffer);
    let Ok(()) = roomed else {
        return roomed;
    };
    let entered = check_file(file, f);
    let Ok(()) = entered else {
        return entered;
    };
    Ok(())
}

// Reads a plan file of any bytes.
#[tactic(auto, unfolding(crate::specs::Reading::read_of))]
pub fn read_plan(file: &[u8], settings: &mut [u8]) -> Result<PlanRead, Refusal>
    ensures result_value { read_reply result ≡ read_of file.now (length settings.old) }
    ensures settings_after { settings.new ≡ settings_after (read_refusal file.now (length settings.old)) file.now settings.old }
{
    let staged = stages(file, settings.len() as u64);
    let Err(refusal) = staged else {
        let fields = fields(file);
        hand_over(file, &mut settings[..fields.scans as usize]);
        let version = version_of(file);
        return Ok(PlanRead { fields, version });
    };
    Err(refusal)
}
