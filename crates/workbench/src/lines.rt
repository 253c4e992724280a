// The lines that bench writes for the numbers that it has taken.
ghost use Rattle.std.specs.Prelude.{◌≡◌, ◌+◌, ◌≤◌, length};
ghost use Rattle.workbench.specs.Request.{out_of_range};
ghost use Rattle.workbench.specs.Parts.{Planable, CallLine, RightLine, Blank, WrittenIn, plan_requested};

use crate::judge::Taken;
use checks::lent::Tables;
use planner::average::average_plan;
use planner::minmax::minmax_plan;
use printing::line::Said;
use printing::put::Text;
use tables::refusal::Refusal;

// A line of a table that is planned, by a call that is lent buffers of zeros, large enough for every such table.
fn put_call<A: Into<Said>, F: FnOnce(&Tables, u64, &mut [u8], &mut [u8]) -> A>(
    text: &mut Text,
    word: &[u8],
    t: &Tables,
    budget: u64,
    call: F,
)
    requires callable { F.IsAlwaysCallable call }
    requires few { (t.now.scans ≤ 1024) × (length word.now ≤ 103) }
    requires room { text.old.at + 4352 ≤ length text.old.out.now }
    ensures same_buffer { text.new.out.ghost_name ≡ text.old.out.ghost_name }
    ensures line { RightLine (CallLine (F.post call) A.converts t.now budget word.now) text.old.out.now text.old.at text.new.out.now text.new.at }
{
    let mut plan = [0u8; 1024];
    let mut scratch = [0u8; 4096];
    let said = call(t, budget, &mut plan, &mut scratch).into();
    text.put_line(word, said, &plan[..t.scans as usize]);
}

// Both lines of a table that is planned: the first four numbers, and the cells of each table after them; with a weight of 1 for each scan.
pub fn put_planned(text: &mut Text, taken: &Taken, cells: usize)
    requires planable { Planable taken.now.numbers.now cells }
    requires blank { Blank text.old }
    ensures { WrittenIn (plan_requested taken.now.numbers.now cells) text.old text.new }
{
    let numbers = taken.numbers;
    let scans = u64::from(numbers[0]);
    let budget = u64::from(numbers[3]);
    let middle = 4 + cells;
    let end = middle + cells;
    let ones = [1u8; 1024];
    let t = Tables {
        scans,
        settings: u64::from(numbers[1]),
        law: u64::from(numbers[2]),
        rates: &numbers[4..middle],
        distortions: &numbers[middle..end],
        weights: &ones[..scans as usize],
    };
    put_call(text, b"ave", &t, budget, average_plan);
    put_call(text, b"minmax", &t, budget, minmax_plan);
}

// The refusal on both lines.
pub fn put_refused(text: &mut Text, r: Refusal)
    requires { Blank text.old }
    ensures { WrittenIn (out_of_range r) text.old text.new }
{
    text.put_line(b"ave", Said::Refused(r), b"");
    text.put_line(b"minmax", Said::Refused(r), b"");
}
