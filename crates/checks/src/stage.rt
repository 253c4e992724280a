// How a stage of checks ends: with nothing, or with the refusal that it stopped at.
ghost use Rattle.std.specs.Prelude.{◌≡◌};
ghost use Rattle.tables.specs.Refusals.{ended};
ghost use Rattle.checks.specs.Checks.{when};

use tables::refusal::Refusal;

// A stage of one test.
pub fn unless(fails: bool, refusal: Refusal) -> Result<(), Refusal>
    ensures { ended result ≡ when fails refusal }
{
    if fails { Err(refusal) } else { Ok(()) }
}
