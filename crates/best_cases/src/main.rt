// The call for the true best on tables, budgets and lent buffers that arrive on standard input, an answer to a line. Both what it reads and what
// it must write were made by tests/second/vectors.py, which shares nothing with the library.
//
// The input is groups. A number is eight bytes, low byte first. A group is
//   the source of the cells, and what it says of weights, as plan_cases has them;
//   N, Q, law, the lengths of the two tables, of the plan, of the choices and of the running totals as they are lent, and how many calls follow;
//   of a group with weights, how many are lent;
//   the cells, and of a group with weights these, as plan_cases has them;
//   the calls, a number each: the budget.
#![tactic(auto)]

mod lend;

use lend::{Room, group};
use shown::turns::every;
use std::io;

// The tables and the weights as plan_cases has them; the plan, the choices and the totals of all cases, and some room past that.
fn main(rt: HostRuntime) -> io::Result<()> {
    let mut input = rt.stdin();
    let mut out = rt.stdout();
    let mut rates = [0u32; 262144];
    let mut distortions = [0u32; 262144];
    let mut weights = [0u8; 2048];
    let mut plan = [0u8; 2048];
    let mut choices = [0u8; 1049600];
    let mut totals = [0u32; 262400];
    every(|| {
        let room = Room {
            rates: &mut rates,
            distortions: &mut distortions,
            weights: &mut weights,
            plan: &mut plan,
            choices: &mut choices,
            totals: &mut totals,
        };
        group(&mut input, &mut out, room)
    })
}
