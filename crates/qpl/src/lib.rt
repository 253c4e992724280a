// The C surface (include/qpl.h): the room question, import and export of lists, the reader and the writer of plan files, the four planning
// calls, and the true best of a short series. Each function is one call of the layer below. It gives back 0, or a refusal's number with what it
// carries in the high 32 bits; what it answers goes to a lent buffer.
#![tactic(auto)]

ghost use Rattle.std.specs.Prelude.{◌≡◌, [], ◌∷◌, length};
ghost use Rattle.checks.specs.Planning.{asking};
ghost use Rattle.promise.specs.Promise.{CeilingPromise, MultiplierPromise, MinmaxPromise, AveragePromise, plan_reply, minmax_reply, average_reply};
ghost use Rattle.best.specs.Best.{BestPromise};
ghost use Rattle.planfile.specs.Reading.{read_of, read_refusal, settings_after};
ghost use Rattle.checks.specs.Checks.{or_answer};
ghost use Rattle.imports.specs.Import.{import_of};
ghost use Rattle.exports.specs.Export.{export_text, text_after};
ghost use Rattle.planfile.specs.Writing.{write_of, write_refusal, file_after};
ghost use Rattle.fits.specs.Fits.{question, FitsPromise, fits_reply};
ghost use Rattle.lastly.specs.Lastly.{room_told, export_told, fits_told};
ghost use Rattle.telling.specs.Told.{Told, word_of, lent as Lent};
ghost use Rattle.qpl.specs.Surface.{Tells, read_bytes, fields_told};

use best::plan::best_plan;
use checks::lent::Tables;
use fits::asked::Asked;
use imports::import::import;
use keys::cost::{Dist, Rate};
use lastly::{export_told, fits_told, room_told};
use planfile::read::read_plan;
use planfile::write::write_plan;
use planner::average::average_plan;
use planner::ceiling::ceiling_plan;
use planner::minmax::minmax_plan;
use planner::multiplier::multiplier_plan;
use rules::Fields;
use telling::{average_answer, lent, minmax_answer, plan_answer, read_answer, tell, word};

// What the answers take: the reader's, those of a plan, of a least ceiling and of an average.
const READ_BYTES: usize = 104;

const PLAN_BYTES: usize = 24;

const MINMAX_BYTES: usize = 32;

const AVERAGE_BYTES: usize = 48;

// cells, bytes, scratch
#[unsafe(no_mangle)]
pub extern "C" fn qpl_room(channels: u64, scans: u64, settings: u64, answer: &mut [u8]) -> u64
    ensures { Told (room_told channels scans settings (length answer.old)) answer.old result answer.new }
{
    tell(room_told(channels, scans, settings, answer.len()), answer)
}

// An encoder's list into the two tables. Nothing but 0 or a refusal goes back.
#[unsafe(no_mangle)]
pub extern "C" fn qpl_import(
    scans: u64,
    settings: u64,
    text: &[u8],
    rates: &mut [u32],
    distortions: &mut [u32],
    scratch: &mut [u8],
) -> u64
    ensures value { result ≡ word_of (or_answer (import_of scans settings text.now rates.old distortions.old scratch.old).ends []) }
    ensures rates_after { rates.new ≡ (import_of scans settings text.now rates.old distortions.old scratch.old).rates }
    ensures distortions_after { distortions.new ≡ (import_of scans settings text.now rates.old distortions.old scratch.old).distortions }
    ensures scratch_after { scratch.new ≡ (import_of scans settings text.now rates.old distortions.old scratch.old).scratch }
{
    import(scans, settings, text, rates, distortions, scratch)
        .err()
        .map_or(0, word)
}

// the length
#[unsafe(no_mangle)]
pub extern "C" fn qpl_export(
    scans: u64,
    settings: u64,
    rates: &[u32],
    distortions: &[u32],
    text: &mut [u8],
    answer: &mut [u8],
) -> u64
    ensures told { Told (or_answer (export_told scans settings rates.now distortions.now (length text.old) (length answer.old)) (length (export_text scans settings rates.now distortions.now) ∷ [])) answer.old result answer.new }
    ensures text_after { text.new ≡ text_after (export_told scans settings rates.now distortions.now (length text.old) (length answer.old)) scans settings rates.now distortions.now text.old }
{
    let told = export_told(scans, settings, rates, distortions, text, answer.len());
    tell(told, answer)
}

// scans, settings, law, kind, budget, n, d, rate, distortion, peak, floor, version, weighted
#[unsafe(no_mangle)]
pub extern "C" fn qpl_read(file: &[u8], settings: &mut [u8], answer: &mut [u8]) -> u64
    ensures told { Told (read_of file.now (Lent read_bytes (length answer.old) (length settings.old))) answer.old result answer.new }
    ensures settings_after { settings.new ≡ settings_after (read_refusal file.now (Lent read_bytes (length answer.old) (length settings.old))) file.now settings.old }
{
    let room = lent(READ_BYTES, answer.len(), settings.len());
    tell(read_answer(read_plan(file, &mut settings[..room])), answer)
}

// The length of the file follows from its scans, so nothing but 0 or a refusal goes back.
#[unsafe(no_mangle)]
pub extern "C" fn qpl_write(
    scans: u64,
    settings: u64,
    law: u64,
    kind: u64,
    budget: u64,
    n: u64,
    d: u64,
    rate: u64,
    distortion: u64,
    peak: u64,
    floor: u64,
    weighted: u64,
    plan: &[u8],
    file: &mut [u8],
) -> u64
    ensures value { result ≡ word_of (write_of (fields_told scans settings law kind budget n d rate distortion peak floor weighted) plan.now (length file.old)) }
    ensures file_after { file.new ≡ file_after (write_refusal (fields_told scans settings law kind budget n d rate distortion peak floor weighted) plan.now (length file.old)) (fields_told scans settings law kind budget n d rate distortion peak floor weighted) plan.now file.old }
{
    let fields = Fields {
        scans,
        settings,
        law,
        kind,
        budget,
        n,
        d,
        rate: Rate(rate),
        distortion: Dist(distortion),
        peak,
        floor: Dist(floor),
        weighted,
    };
    write_plan(fields, plan, file).err().map_or(0, word)
}

// rate, distortion, peak
#[unsafe(no_mangle)]
pub extern "C" fn qpl_ceiling(
    scans: u64,
    settings: u64,
    law: u64,
    ceiling: u32,
    rates: &[u32],
    distortions: &[u32],
    weights: &[u8],
    plan: &mut [u8],
    scratch: &mut [u8],
    answer: &mut [u8],
) -> u64
    ensures { Tells plan_reply (λ a. CeilingPromise (asking scans settings law rates.now distortions.now weights.now (Lent 24 (length answer.old) (length plan.old)) (length scratch.old)) ceiling plan.old scratch.old a plan.new scratch.new) answer.old result answer.new }
{
    let tables = Tables {
        scans,
        settings,
        law,
        rates,
        distortions,
        weights,
    };
    let room = lent(PLAN_BYTES, answer.len(), plan.len());
    let told = ceiling_plan(&tables, ceiling, &mut plan[..room], scratch);
    tell(plan_answer(told), answer)
}

// rate, distortion, peak
#[unsafe(no_mangle)]
pub extern "C" fn qpl_multiplier(
    scans: u64,
    settings: u64,
    law: u64,
    n: u64,
    d: u64,
    rates: &[u32],
    distortions: &[u32],
    weights: &[u8],
    plan: &mut [u8],
    scratch: &mut [u8],
    answer: &mut [u8],
) -> u64
    ensures { Tells plan_reply (λ a. MultiplierPromise (asking scans settings law rates.now distortions.now weights.now (Lent 24 (length answer.old) (length plan.old)) (length scratch.old)) n d plan.old scratch.old a plan.new scratch.new) answer.old result answer.new }
{
    let tables = Tables {
        scans,
        settings,
        law,
        rates,
        distortions,
        weights,
    };
    let room = lent(PLAN_BYTES, answer.len(), plan.len());
    let told = multiplier_plan(&tables, n, d, &mut plan[..room], scratch);
    tell(plan_answer(told), answer)
}

// X, rate, distortion, peak
#[unsafe(no_mangle)]
pub extern "C" fn qpl_minmax(
    scans: u64,
    settings: u64,
    law: u64,
    budget: u64,
    rates: &[u32],
    distortions: &[u32],
    weights: &[u8],
    plan: &mut [u8],
    scratch: &mut [u8],
    answer: &mut [u8],
) -> u64
    ensures { Tells minmax_reply (λ a. MinmaxPromise (asking scans settings law rates.now distortions.now weights.now (Lent 32 (length answer.old) (length plan.old)) (length scratch.old)) budget plan.old scratch.old a plan.new scratch.new) answer.old result answer.new }
{
    let tables = Tables {
        scans,
        settings,
        law,
        rates,
        distortions,
        weights,
    };
    let room = lent(MINMAX_BYTES, answer.len(), plan.len());
    let told = minmax_plan(&tables, budget, &mut plan[..room], scratch);
    tell(minmax_answer(told), answer)
}

// n, d, rate, distortion, peak, floor
#[unsafe(no_mangle)]
pub extern "C" fn qpl_average(
    scans: u64,
    settings: u64,
    law: u64,
    budget: u64,
    rates: &[u32],
    distortions: &[u32],
    weights: &[u8],
    plan: &mut [u8],
    scratch: &mut [u8],
    answer: &mut [u8],
) -> u64
    ensures { Tells average_reply (λ a. AveragePromise (asking scans settings law rates.now distortions.now weights.now (Lent 48 (length answer.old) (length plan.old)) (length scratch.old)) budget plan.old scratch.old a plan.new scratch.new) answer.old result answer.new }
{
    let tables = Tables {
        scans,
        settings,
        law,
        rates,
        distortions,
        weights,
    };
    let room = lent(AVERAGE_BYTES, answer.len(), plan.len());
    let told = average_plan(&tables, budget, &mut plan[..room], scratch);
    tell(average_answer(told), answer)
}

// rate, distortion, peak
#[unsafe(no_mangle)]
pub extern "C" fn qpl_best(
    scans: u64,
    settings: u64,
    law: u64,
    budget: u64,
    rates: &[u32],
    distortions: &[u32],
    weights: &[u8],
    plan: &mut [u8],
    choices: &mut [u8],
    totals: &mut [u32],
    answer: &mut [u8],
) -> u64
    ensures { Tells plan_reply (λ a. BestPromise (asking scans settings law rates.now distortions.now weights.now (Lent 24 (length answer.old) (length plan.old)) (length choices.old)) budget plan.old choices.old totals.old a plan.new choices.new totals.new) answer.old result answer.new }
{
    let tables = Tables {
        scans,
        settings,
        law,
        rates,
        distortions,
        weights,
    };
    let room = lent(PLAN_BYTES, answer.len(), plan.len());
    let told = best_plan(&tables, budget, &mut plan[..room], choices, totals);
    tell(plan_answer(told), answer)
}

// 1 for yes, 0 for no
#[unsafe(no_mangle)]
pub extern "C" fn qpl_fits(
    scans: u64,
    settings: u64,
    law: u64,
    budget: u64,
    rates: &[u32],
    distortions: &[u32],
    answer: &mut [u8],
) -> u64
    ensures { Tells (fits_told (length answer.old)) (λ a. FitsPromise (question scans settings law budget rates.now distortions.now) (fits_reply a)) answer.old result answer.new }
{
    let asked = Asked {
        scans,
        settings,
        law,
        budget,
        rates,
        distortions,
    };
    tell(fits_told(&asked, answer.len()), answer)
}
