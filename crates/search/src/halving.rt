// The least ceiling under which something fits the budget.
ghost use Rattle.std.specs.Prelude.{◌≤◌, length};
ghost use Rattle.tables.specs.Tables.{scratch_need};
ghost use Rattle.checks.specs.Given.{planning_in};
ghost use Rattle.search.specs.Search.{ThriftyFits, SomeFits, LeastCeiling};

use checks::checked::Checked;
use seek::passes::thrifty_pass;
use walk::total_up;

// Does the least-rate plan under the ceiling fit the budget?
fn some_fit(t: &Checked, ceiling: u32, budget: u64, scratch: &mut [u8]) -> bool
    requires { scratch_need t.now.scans t.now.settings ≤ length scratch.old }
    ensures { ThriftyFits (planning_in t.now) t.now.scans t.now.settings ceiling budget scratch.old scratch.new result }
{
    thrifty_pass(t, ceiling, scratch) && total_up(t, scratch).rate.0 <= budget
}

// The least ceiling under which something fits the budget, by halving what is left between 0 and `high`, under which something does.
pub fn least_ceiling(t: &Checked, budget: u64, high: u32, scratch: &mut [u8]) -> u32
    requires room { scratch_need t.now.scans t.now.settings ≤ length scratch.old }
    requires some_fits { SomeFits (planning_in t.now) budget high }
    ensures { LeastCeiling (planning_in t.now) t.now.scans t.now.settings budget result scratch.old scratch.new }
{
    let mut low: u32 = 0;
    let mut least = high;
    while low < least {
        let middle = low + (least - low) / 2;
        if some_fit(t, middle, budget, scratch) {
            least = middle;
        } else {
            low = middle + 1;
        }
    }
    least
}
