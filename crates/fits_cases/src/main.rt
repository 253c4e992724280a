// The question whether something fits, on tables and budgets that arrive on standard input, an answer to a line. Both what it reads and what it
// must write were made by tests/second/vectors.py, which shares nothing with the library.
//
// The input is groups. A number is eight bytes, low byte first. A group is
//   the source of the cells, as plan_cases has it of a group without weights;
//   N, Q, law, the lengths of the two tables as they are lent, and how many calls follow;
//   the cells, as plan_cases has them;
//   the calls, a number each: the budget.
#![tactic(auto)]

mod lend;

use lend::group;
use shown::turns::every;
use std::io;

// The tables of all cases, and some room past that.
fn main(rt: HostRuntime) -> io::Result<()> {
    let mut input = rt.stdin();
    let mut out = rt.stdout();
    let mut rates = [0u32; 262144];
    let mut distortions = [0u32; 262144];
    every(|| group(&mut input, &mut out, &mut rates, &mut distortions))
}
