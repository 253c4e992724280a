// bench: plans the tables of one text on standard input, and writes the lines for it.
#![tactic(auto)]

ghost use Rattle.std.specs.Prelude.{◌≤◌, IfOk, OnErr, length};
ghost use Rattle.reading.specs.declared.State.{State};
ghost use Rattle.bench.specs.Got.{Got};

use reading::State;
use std::io;
use std::io::{Read, Write};

// Reads until that is enough, or the input ends; where a read fails, its error is what comes back, and the numbers are those so far.
// A proved loop has to end, and nothing says that the input does. So it counts up to a number that no run uses up.
fn read_text<R: Read>(input: &mut R, numbers: &mut [u32]) -> io::Result<State>
    requires { 8196 ≤ length numbers.old }
    ensures read { IfOk result (λ s. Got numbers.new s) }
    ensures so_far { OnErr result ((s : State) × Got numbers.new s) }
{
    let mut piece = [0u8; 4096];
    let mut s = reading::fresh();
    for _ in 0..u64::MAX {
        if workbench::enough(s, numbers) {
            break;
        }
        let got = input.read(&mut piece)?;
        if got == 0 {
            break;
        }
        s = reading::feed(s, &piece[..got], numbers);
    }
    Ok(s)
}

// Room for the numbers of the largest text that is planned, and for the longest two lines.
fn main(rt: HostRuntime) -> io::Result<()> {
    let mut input = rt.stdin();
    let mut output = rt.stdout();
    let mut numbers = [0u32; 8196];
    let mut out = [0u8; 8704];
    let s = read_text(&mut input, &mut numbers)?;
    let n = workbench::answer(s, &mut numbers, &mut out);
    output.write_all(&out[..n])
}
