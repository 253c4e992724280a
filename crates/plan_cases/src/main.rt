// The four planning calls on tables, limits and lent buffers that arrive on standard input, an answer to a line. Both what it reads and what
// it must write were made by tests/second/vectors.py, which shares nothing with the library.
//
// The input is groups. A number is eight bytes, low byte first. A group is
//   the source of the cells: 0 or the end of the input ends the run, 1 keeps the cells of the group before, 2 is codes, 3 is a generator;
//     5, 6 and 7 are 1, 2 and 3 in a group that has weights of its own, and a group with any of the others is lent a 1 for each scan;
//   N, Q, law, the lengths of the two tables and of the two buffers as they are lent, and how many calls follow;
//   of a group with weights, how many are lent;
//   the cells (coded.rt and stream.rt of shown);
//   of a group with weights, these, a byte each;
//   the calls, three numbers each: which (1 ceiling, 2 multiplier, 3 minmax, 4 average), X or n or B, and d.
#![tactic(auto)]

mod ask;
mod lend;

use lend::{Room, group};
use shown::turns::every;
use std::io;

// The tables, the weights and the buffers at their largest, and some room past that, so that longer ones can be lent too.
fn main(rt: HostRuntime) -> io::Result<()> {
    let mut input = rt.stdin();
    let mut out = rt.stdout();
    let mut rates = [0u32; 262144];
    let mut distortions = [0u32; 262144];
    let mut weights = [0u8; 2048];
    let mut plan = [0u8; 2048];
    let mut scratch = [0u8; 32768];
    every(|| {
        let room = Room {
            rates: &mut rates,
            distortions: &mut distortions,
            weights: &mut weights,
            plan: &mut plan,
            scratch: &mut scratch,
        };
        group(&mut input, &mut out, room)
    })
}
