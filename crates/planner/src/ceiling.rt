// Ceiling X: among allowed sequences with peak at most X, least rate, then least distortion, then first.
ghost use Rattle.std.proofs.Math.Option.{none};
ghost use Rattle.std.specs.Prelude.{length};
ghost use Rattle.checks.specs.Planning.{Sound};
ghost use Rattle.checks.specs.Given.{asked_of, asked_in};
ghost use Rattle.promise.specs.Promise.{CeilingPromise};

use checks::checked::Checked;
use checks::lent::Tables;
use seek::finish::{close, finish};
use seek::passes::{NO_CEILING, thrifty_pass};
use tables::refusal::Refusal;
use walk::Totals;

// Where the checks have passed.
fn sound_ceiling(
    t: &Checked,
    ceiling: u32,
    plan: &mut [u8],
    scratch: &mut [u8],
) -> Result<Totals, Refusal>
    requires { Sound none (asked_in t.now (length plan.old) (length scratch.old)) }
    ensures { CeilingPromise (asked_in t.now (length plan.old) (length scratch.old)) ceiling plan.old scratch.old result plan.new scratch.new }
{
    if thrifty_pass(t, ceiling, scratch) {
        return Ok(finish(t, plan, scratch));
    }
    // Nothing is under the ceiling: is there a sequence at all?
    let any = thrifty_pass(t, NO_CEILING, scratch);
    close(false, t.scans, t.settings, plan, scratch);
    if any {
        return Err(Refusal::NoneWithin);
    }
    Err(Refusal::NoSequence)
}

pub fn ceiling_plan(
    tables: &Tables,
    ceiling: u32,
    plan: &mut [u8],
    scratch: &mut [u8],
) -> Result<Totals, Refusal>
    ensures { CeilingPromise (asked_of tables.now (length plan.old) (length scratch.old)) ceiling plan.old scratch.old result plan.new scratch.new }
{
    let t = tables.check(Ok(()), plan.len(), scratch.len())?;
    sound_ceiling(&t, ceiling, plan, scratch)
}
