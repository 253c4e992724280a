// What a plan file says of its plan beside the settings, and the rules of these fields, each charged to its byte.
#![tactic(auto)]

ghost use Rattle.std.specs.Prelude.{◌≡◌, ◌||◌};
ghost use Rattle.tables.specs.Law.{law_out};
ghost use Rattle.checks.specs.Checks.{first_refusal};
ghost use Rattle.rules.specs.Rules.{header_rules, neither_of_two, n_broken, d_broken};
ghost use Rattle.rules.specs.Rules.{rate_broken, peak_broken, floor_broken};
ghost use Rattle.tables.specs.Refusals.{ended};

use checks::range::outside;
use checks::stage::unless;
use keys::cost::{Dist, Rate};
use tables::common::common;
use tables::law::no_law;
use tables::limits::{MOST_CELL, MOST_SCANS, MOST_SETTINGS, MOST_TERM, MOST_TOTAL};
use tables::refusal::Refusal;

#[derive(Clone, Copy)]
pub struct Fields {
    pub scans: u64,
    pub settings: u64,
    // A number and no enum: a file may hold any, and the rule of byte 11 judges it (`header_rules`).
    pub law: u64,
    // 0 average, 1 minmax; a number for the same reason, judged by the rule of byte 12
    pub kind: u64,
    pub budget: u64,
    pub n: u64,
    pub d: u64,
    pub rate: Rate,
    pub distortion: Dist,
    pub peak: u64,
    pub floor: Dist,
    // the mark of weights, 0 or 1 (`filing` makes it from the weights); a number for the same reason, judged by the rule of byte 13
    pub weighted: u64,
}

// What is wrong in block 0 beside its fields: other letters, another length than N's, a run of zeros that is none. (The run from byte 13 on is
// not QPL2's.)
#[derive(Default, Drop)]
pub struct Faults {
    pub letters: bool,
    pub length: bool,
    pub run_13: bool,
    pub run_14: bool,
    pub run_48: bool,
}

// Neither 0 nor 1: no kind of plan, and no mark of weights.
fn neither_of_two(x: u64) -> bool
    ensures { result ≡ neither_of_two x }
{
    x != 0 && x != 1
}

#[tactic(auto, unfolding(crate::specs::Rules::n_broken))]
fn n_wrong(kind: u64, n: u64, d: u64) -> bool
    ensures { result ≡ n_broken kind n d }
{
    if kind != 0 {
        return n != 0;
    }
    MOST_TERM < n || (!outside(MOST_TERM, d) && common(n, d) != 1)
}

#[tactic(auto, unfolding(crate::specs::Rules::d_broken))]
fn d_wrong(kind: u64, d: u64) -> bool
    ensures { result ≡ d_broken kind d }
{
    if kind != 0 {
        return d != 0;
    }
    outside(MOST_TERM, d)
}

fn rate_wrong(rate: u64, budget: u64) -> bool
    ensures { result ≡ rate_broken rate budget }
{
    MOST_TOTAL < rate || budget < rate
}

// Where some weight is not 1 the distortion is a weighted sum, and a cell of a scan of weight 0 may be above it.
fn peak_wrong(weighted: u64, peak: u64, distortion: u64) -> bool
    ensures { result ≡ peak_broken weighted peak distortion }
{
    u64::from(MOST_CELL) < peak || (weighted == 0 && distortion < peak)
}

fn floor_wrong(kind: u64, floor: u64, distortion: u64) -> bool
    ensures { result ≡ floor_broken kind floor distortion }
{
    if kind != 0 {
        return floor != 0;
    }
    distortion < floor
}

// The first field in byte order that breaks its rule.
pub fn rules(m: Faults, f: Fields) -> Result<(), Refusal>
    ensures { ended result ≡ first_refusal (header_rules (law_out f.law) m f) }
{
    unless(m.letters, Refusal::Header(4))?;
    unless(outside(MOST_SCANS, f.scans) || m.length, Refusal::Header(8))?;
    unless(outside(MOST_SETTINGS, f.settings), Refusal::Header(10))?;
    unless(no_law(f.law), Refusal::Header(11))?;
    unless(neither_of_two(f.kind), Refusal::Header(12))?;
    unless(m.run_13 || neither_of_two(f.weighted), Refusal::Header(13))?;
    unless(m.run_14, Refusal::Header(14))?;
    unless(n_wrong(f.kind, f.n, f.d), Refusal::Header(24))?;
    unless(d_wrong(f.kind, f.d), Refusal::Header(28))?;
    unless(rate_wrong(f.rate.0, f.budget), Refusal::Header(32))?;
    unless(MOST_TOTAL < f.distortion.0, Refusal::Header(36))?;
    unless(
        peak_wrong(f.weighted, f.peak, f.distortion.0),
        Refusal::Header(40),
    )?;
    unless(
        floor_wrong(f.kind, f.floor.0, f.distortion.0),
        Refusal::Header(44),
    )?;
    unless(m.run_48, Refusal::Header(48))
}
