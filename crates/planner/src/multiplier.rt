// Multiplier n/d: among all allowed sequences, least d × distortion + n × rate, then least rate, then first.
ghost use Rattle.std.specs.Prelude.{length};
ghost use Rattle.checks.specs.Planning.{Sound, fourth_check};
ghost use Rattle.checks.specs.Given.{asked_of, asked_in};
ghost use Rattle.promise.specs.Promise.{MultiplierPromise};

use checks::checked::Checked;
use checks::lent::Tables;
use checks::range::multiplier_outside;
use checks::stage::unless;
use keys::cost::Ratio;
use seek::finish::{close, finish};
use seek::passes::multiplier_pass;
use tables::refusal::Refusal;
use walk::Totals;

// Where the checks have passed.
fn sound_multiplier(
    t: &Checked,
    n: u64,
    d: u64,
    plan: &mut [u8],
    scratch: &mut [u8],
) -> Result<Totals, Refusal>
    requires { Sound (fourth_check n d) (asked_in t.now (length plan.old) (length scratch.old)) }
    ensures { MultiplierPromise (asked_in t.now (length plan.old) (length scratch.old)) n d plan.old scratch.old result plan.new scratch.new }
{
    if multiplier_pass(t, Ratio { n, d }, scratch) {
        return Ok(finish(t, plan, scratch));
    }
    close(false, t.scans, t.settings, plan, scratch);
    Err(Refusal::NoSequence)
}

pub fn multiplier_plan(
    tables: &Tables,
    n: u64,
    d: u64,
    plan: &mut [u8],
    scratch: &mut [u8],
) -> Result<Totals, Refusal>
    ensures { MultiplierPromise (asked_of tables.now (length plan.old) (length scratch.old)) n d plan.old scratch.old result plan.new scratch.new }
{
    let fourth = unless(multiplier_outside(n, d), Refusal::Multiplier);
    let t = tables.check(fourth, plan.len(), scratch.len())?;
    sound_multiplier(&t, n, d, plan, scratch)
}
