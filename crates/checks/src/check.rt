// The checks 1 to 7 of a planning call, in document 01's order; and 1, 2, 3 and 5 of a call that has no weights.
ghost use Rattle.std.specs.Prelude.{◌≡◌, not, ◌||◌, ◌≤◌, eqb, ltb, length, IfOk};
ghost use Rattle.tables.specs.Limits.{most_scans};
ghost use Rattle.tables.specs.Legal.{weights_by_scan};
ghost use Rattle.tables.specs.Refusals.{ended};
ghost use Rattle.legal.specs.Judged.{Judged};
ghost use Rattle.checks.specs.Checks.{first_refusal};
ghost use Rattle.checks.specs.Fit.{Sized};
ghost use Rattle.checks.specs.Planning.{lengths_out, weights_out, front_checks, plain_checks};
ghost use Rattle.checks.specs.Stages.{CheckedAs};
ghost use Rattle.checks.specs.Given.{asked_of, IsOf};

use crate::checked::Checked;
use crate::lent::Tables;
use crate::range::ranges;
use crate::stage::unless;
use legal::judge;
use tables::cells::{count, scratch_need};
use tables::law::no_law;
use tables::limits::MOST_SCANS;
use tables::refusal::Refusal;

// 5: not both of this length.
pub fn wrong_lengths(cells: usize, rates: usize, distortions: usize) -> bool
    ensures { result ≡ (not (eqb rates cells) || not (eqb distortions cells)) }
{
    rates != cells || distortions != cells
}

// 6: a buffer shorter than needed.
fn too_short(scans: usize, need: usize, plan: usize, scratch: usize) -> bool
    ensures { result ≡ (ltb plan scans || ltb scratch need) }
{
    plan < scans || scratch < need
}

// 1, 2, 3 and 5 of a call that has no weights.
pub fn plain_front(
    scans: u64,
    settings: u64,
    lawless: bool,
    rates: &[u32],
    distortions: &[u32],
) -> Result<(), Refusal>
    ensures { ended result ≡ first_refusal (plain_checks scans settings lawless rates.now distortions.now) }
{
    ranges(MOST_SCANS, scans, settings, lawless)?;
    let cells = count(scans, settings) as usize;
    unless(
        wrong_lengths(cells, rates.len(), distortions.len()),
        Refusal::Lengths,
    )
}

impl<'a> Tables<'a> {
    // 1, 2, 3, the check that a call has between 3 and 5, and 5, where at most `most` scans are taken and `lawless` says that the law is none of
    // those that the call takes.
    pub fn front(
        &self,
        most: u64,
        lawless: bool,
        further: Result<(), Refusal>,
    ) -> Result<(), Refusal>
        requires { most ≤ most_scans }
        ensures { ended result ≡ first_refusal (front_checks most self.now.scans self.now.settings lawless (ended further) (lengths_out self.now.scans self.now.settings self.now.rates.now self.now.distortions.now || weights_out self.now.scans self.now.weights.now)) }
    {
        ranges(most, self.scans, self.settings, lawless)?;
        further?;
        let cells = count(self.scans, self.settings) as usize;
        let lengths = wrong_lengths(cells, self.rates.len(), self.distortions.len());
        unless(
            lengths || self.weights.len() != self.scans as usize,
            Refusal::Lengths,
        )
    }

    // 7, of tables whose numbers and lengths have passed.
    pub fn judged(&self) -> Result<Checked<'a>, Refusal>
        requires { Sized self.now.scans self.now.settings self.now.rates.now self.now.distortions.now self.now.weights.now }
        ensures judged { Judged (weights_by_scan self.now.settings self.now.weights.now) self.now.rates.now self.now.distortions.now (ended result) }
        ensures same { IfOk result (IsOf self.now) }
    {
        let settings = self.settings as usize;
        judge(self.rates, self.distortions, self.weights, settings)?;
        Ok(Checked {
            scans: self.scans as usize,
            settings,
            law: self.law,
            rates: self.rates,
            distortions: self.distortions,
            weights: self.weights,
        })
    }

    // `further` is the check that a call has between 3 and 5. `plan` and `scratch` are the lengths of the lent buffers.
    pub fn check(
        &self,
        further: Result<(), Refusal>,
        plan: usize,
        scratch: usize,
    ) -> Result<Checked<'a>, Refusal>
        ensures checked { CheckedAs (ended further) (asked_of self.now plan scratch) (ended result) }
        ensures same { IfOk result (IsOf self.now) }
    {
        self.front(MOST_SCANS, no_law(self.law), further)?;
        let need = scratch_need(self.scans, self.settings) as usize;
        unless(
            too_short(self.scans as usize, need, plan, scratch),
            Refusal::Buffer,
        )?;
        self.judged()
    }
}
