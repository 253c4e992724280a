// The plan-file reader and writer on files, fields, settings and lent buffers that arrive on standard input, an answer to a line. Both what
// it reads and what it must write were made by tests/second/vectors.py, which shares nothing with the library.
//
// The input is calls. The file, the writer's settings and its twelve fields stay from call to call: a call says only what changes in them.
// A number is low byte first. A call is a byte that says which, and then
//   1, a read: the file's changes (change.rt), its length and that of the settings buffer, two bytes each;
//   2, a write: the fields' changes, the settings' changes, the length of the settings and that of the file buffer, two bytes each.
// Any other byte, or the end of the input, ends the run.
#![tactic(auto)]

mod calls;
mod change;

use calls::Kept;
use shown::turns::every;
use std::io;

// A file and a buffer may be longer than any that the rules ask for. What is not yet given is zero.
fn main(rt: HostRuntime) -> io::Result<()> {
    let mut input = rt.stdin();
    let mut out = rt.stdout();
    let mut kept = Kept {
        file: [0; 4608],
        given: [0; 2048],
        told: [0; 12],
        lent: [0; 4608],
    };
    every(|| kept.call(&mut input, &mut out))
}
