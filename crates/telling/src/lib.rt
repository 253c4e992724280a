// What goes back to a host: a number, and the values of an answer in the buffer that it lent, eight bytes each.
#![tactic(auto)]

ghost use Rattle.std.specs.Prelude.{◌≡◌, ◌*◌, ◌≤◌, ◌<◌, ◌^◌, length};
ghost use Rattle.std.proofs.lemmas.List.Edits.{sets};
ghost use Rattle.tables.specs.Refusals.{refused, carried_by};
ghost use Rattle.planfile.specs.Reading.{read_reply};
ghost use Rattle.promise.specs.Promise.{plan_reply, minmax_reply, average_reply};
ghost use Rattle.room.specs.Room.{room_reply};
ghost use Rattle.exports.specs.Export.{export_reply};
ghost use Rattle.fits.specs.Fits.{fits_reply};
ghost use Rattle.telling.specs.Told.{eights, Told, word_of, lent as Lent};
ghost use Rattle.telling.specs.Parts.{Tellable, answer_reply};

use octets::numbers::put_number;
use planfile::read::PlanRead;
use promise::{AveragePlan, MinmaxPlan};
use room::Room;
use tables::refusal::{Refusal, carried, number};
use walk::Totals;

// The room for settings or for a text: none where the answer would not fit, so that the call below refuses it in its place among the checks.
pub fn lent(need: usize, answer: usize, room: usize) -> usize
    ensures { (result ≡ Lent need answer room) × (result ≤ room) }
{
    if answer < need { 0 } else { room }
}

// The number of a refusal, with what it carries in the high 32 bits.
pub fn word(r: Refusal) -> u64
    requires { carried_by r < 2 ^ 32 }
    ensures { result ≡ word_of (refused r) }
{
    number(r) + 4294967296 * carried(r)
}

// The values, one behind the other.
fn put_values(values: &[u64], answer: &mut [u8])
    requires { 8 * length values.now ≤ length answer.old }
    ensures { answer.new ≡ sets answer.old 0 (eights values.now) }
{
    for (i, v) in values.iter().enumerate() {
        put_number::<8>(answer, 8 * i, *v);
    }
}

// What goes back of an answer: 0 with its values in the buffer, or its refusal, which leaves the buffer as it was.
pub fn tell<const N: usize>(told: Result<[u64; N], Refusal>, answer: &mut [u8]) -> u64
    requires { Tellable (answer_reply told) (length answer.old) }
    ensures { Told (answer_reply told.entry) answer.old result answer.new }
{
    match told {
        Ok(values) => {
            put_values(&values, answer);
            0
        }
        Err(r) => word(r),
    }
}

// cells, bytes, scratch
pub fn room_answer(told: Result<Room, Refusal>) -> Result<[u64; 3], Refusal>
    ensures { answer_reply result ≡ room_reply told }
{
    let g = told?;
    Ok([g.cells, g.bytes, g.scratch])
}

// rate, distortion, peak
pub fn plan_answer(told: Result<Totals, Refusal>) -> Result<[u64; 3], Refusal>
    ensures { answer_reply result ≡ plan_reply told }
{
    let t = told?;
    Ok([t.rate.0, t.distortion.0, t.peak])
}

// X, rate, distortion, peak
pub fn minmax_answer(told: Result<MinmaxPlan, Refusal>) -> Result<[u64; 4], Refusal>
    ensures { answer_reply result ≡ minmax_reply told }
{
    let m = told?;
    let t = m.totals;
    Ok([m.ceiling, t.rate.0, t.distortion.0, t.peak])
}

// n, d, rate, distortion, peak, floor
pub fn average_answer(told: Result<AveragePlan, Refusal>) -> Result<[u64; 6], Refusal>
    ensures { answer_reply result ≡ average_reply told }
{
    let a = told?;
    let t = a.totals;
    Ok([a.n, a.d, t.rate.0, t.distortion.0, t.peak, a.floor.0])
}

// the length
pub fn export_answer(told: Result<u64, Refusal>) -> Result<[u64; 1], Refusal>
    ensures { answer_reply result ≡ export_reply told }
{
    Ok([told?])
}

// 1 for yes, 0 for no
pub fn fits_answer(told: Result<bool, Refusal>) -> Result<[u64; 1], Refusal>
    ensures { answer_reply result ≡ fits_reply told }
{
    Ok([u64::from(told?)])
}

// scans, settings, law, kind, budget, n, d, rate, distortion, peak, floor, version, weighted
pub fn read_answer(told: Result<PlanRead, Refusal>) -> Result<[u64; 13], Refusal>
    ensures { answer_reply result ≡ read_reply told }
{
    let p = told?;
    let f = p.fields;
    Ok([
        f.scans,
        f.settings,
        f.law,
        f.kind,
        f.budget,
        f.n,
        f.d,
        f.rate.0,
        f.distortion.0,
        f.peak,
        f.floor.0,
        p.version,
        f.weighted,
    ])
}
