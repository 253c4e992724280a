// A line of bench: of what it says and the settings of its plan.
ghost use Rattle.std.specs.Prelude.{◌≡◌, ◌+◌, ◌*◌, ◌≤◌, length};
ghost use Rattle.printing.specs.Lines.{ratio, sums, ave_text, minmax_text, said_text, line, average_said, minmax_said};
ghost use Rattle.printing.specs.Puts.{Puts};

use crate::put::Text;
use promise::{AveragePlan, MinmaxPlan};
use tables::refusal::Refusal;
use walk::Totals;

// What a line says after its first word: a plan, or that there is none.
#[derive(Clone, Copy)]
pub enum Said {
    Average(AveragePlan),
    Minmax(MinmaxPlan),
    Refused(Refusal),
}

// What the first line says of an answer of the average call, and the second of one of the minmax call.
impl From<Result<AveragePlan, Refusal>> for Said {
    ghost from_gives = { λ answer said. said ≡ average_said answer };

    fn from(answer: Result<AveragePlan, Refusal>) -> Said {
        answer.map_or_else(Said::Refused, Said::Average)
    }
}

impl From<Result<MinmaxPlan, Refusal>> for Said {
    ghost from_gives = { λ answer said. said ≡ minmax_said answer };

    fn from(answer: Result<MinmaxPlan, Refusal>) -> Said {
        answer.map_or_else(Said::Refused, Said::Minmax)
    }
}

impl Text<'_> {
    // " n/d": two numbers of 20 digits at most, a space and a slash.
    #[tactic(auto, using(crate::proofs::DecimalLaws::length_decimal))]
    fn put_ratio(&mut self, n: u64, d: u64)
        requires { self.old.at + 42 ≤ length self.old.out.now }
        ensures put { Puts self.old (ratio n d) self.new }
        ensures upper_bound { self.new.at ≤ self.old.at + 42 }
    {
        self.put_spaced(n);
        self.put(b"/");
        self.put_number(d);
    }

    // The rate and the distortion of a plan, which both lines have.
    fn put_sums(&mut self, totals: Totals)
        requires { self.old.at + 52 ≤ length self.old.out.now }
        ensures put { Puts self.old (sums totals) self.new }
        ensures upper_bound { self.new.at ≤ self.old.at + 52 }
    {
        self.put_named(b"rate", totals.rate.0);
        self.put_named(b"dist", totals.distortion.0);
    }

    // What follows the first word of the first line when there is a plan: 42 bytes, 52, " peak " and " floor " with their numbers, and " plan".
    fn put_average(&mut self, plan: AveragePlan, settings: &[u8])
        requires { self.old.at + (152 + 4 * length settings.now) ≤ length self.old.out.now }
        ensures put { Puts self.old (ave_text plan settings.now) self.new }
        ensures upper_bound { self.new.at ≤ self.old.at + (152 + 4 * length settings.now) }
    {
        self.put_ratio(plan.n, plan.d);
        self.put_sums(plan.totals);
        self.put_named(b"peak", plan.totals.peak);
        self.put_named(b"floor", plan.floor.0);
        self.put_planned(settings);
    }

    // And of the second: a space and 20 digits, 52 bytes, and " plan".
    #[tactic(auto, using(crate::proofs::DecimalLaws::length_decimal))]
    fn put_minmax(&mut self, plan: MinmaxPlan, settings: &[u8])
        requires { self.old.at + (78 + 4 * length settings.now) ≤ length self.old.out.now }
        ensures put { Puts self.old (minmax_text plan settings.now) self.new }
        ensures upper_bound { self.new.at ≤ self.old.at + (78 + 4 * length settings.now) }
    {
        self.put_spaced(plan.ceiling);
        self.put_sums(plan.totals);
        self.put_planned(settings);
    }

    // What the line says, in as many bytes as the longest needs.
    fn put_said(&mut self, said: Said, settings: &[u8])
        requires { self.old.at + (152 + 4 * length settings.now) ≤ length self.old.out.now }
        ensures put { Puts self.old (said_text said settings.now) self.new }
        ensures upper_bound { self.new.at ≤ self.old.at + (152 + 4 * length settings.now) }
    {
        match said {
            Said::Average(plan) => self.put_average(plan, settings),
            Said::Minmax(plan) => self.put_minmax(plan, settings),
            Said::Refused(r) => self.put_refusal(r),
        }
    }

    // A whole line: its first word, what it says, and its end.
    pub fn put_line(&mut self, word: &[u8], said: Said, settings: &[u8])
        requires { self.old.at + (length word.now + (153 + 4 * length settings.now)) ≤ length self.old.out.now }
        ensures put { Puts self.old (line word.now said settings.now) self.new }
        ensures upper_bound { self.new.at ≤ self.old.at + (length word.now + (153 + 4 * length settings.now)) }
    {
        self.put(word);
        self.put_said(said, settings);
        self.put(b"\n");
    }
}
