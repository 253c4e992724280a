// The room question.
#![tactic(auto)]

ghost use Rattle.std.specs.Prelude.{◌≡◌, ◌*◌, ◌≤◌, ◌<◌, ◌^◌};
ghost use Rattle.tables.specs.Limits.{most_channels};
ghost use Rattle.tables.specs.Refusals.{ended};
ghost use Rattle.checks.specs.Checks.{first_refusal};
ghost use Rattle.room.specs.Room.{room_checks, room_of, room_reply};

use checks::range::outside;
use checks::stage::unless;
use tables::cells::{count, scratch_need};
use tables::limits::{MOST_CHANNELS, MOST_SCANS, MOST_SETTINGS};
use tables::refusal::Refusal;

#[derive(Clone, Copy)]
pub struct Room {
    // the cells of one table
    pub cells: u64,
    // bytes of one table for all channels
    pub bytes: u64,
    // scratch bytes for one call
    pub scratch: u64,
}

// The bytes of one table for all channels: four for each cell.
fn table_bytes(channels: u64, cells: u64) -> u64
    requires { (channels ≤ most_channels) × (4 * channels * cells < 2 ^ 64) }
    ensures { result ≡ 4 * channels * cells }
{
    4 * channels * cells
}

// 10, 1 and 2.
fn checked(channels: u64, scans: u64, settings: u64) -> Result<(), Refusal>
    ensures { ended result ≡ first_refusal (room_checks channels scans settings) }
{
    unless(outside(MOST_CHANNELS, channels), Refusal::Channels)?;
    unless(outside(MOST_SCANS, scans), Refusal::Scans)?;
    unless(outside(MOST_SETTINGS, settings), Refusal::Settings)
}

// What a host needs to lend for its channels, scans and settings: the true products, or a refusal.
pub fn room_for(channels: u64, scans: u64, settings: u64) -> Result<Room, Refusal>
    ensures { room_reply result ≡ room_of channels scans settings }
{
    checked(channels, scans, settings)?;
    let cells = count(scans, settings);
    Ok(Room {
        cells,
        bytes: table_bytes(channels, cells),
        scratch: scratch_need(scans, settings),
    })
}
