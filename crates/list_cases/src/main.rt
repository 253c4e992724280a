// Import and export of an encoder's lists on texts, tables and lent buffers that arrive on standard input, an answer to a line. Both what
// it reads and what it must write were made by tests/second/list_vectors.py, which shares nothing with the library.
// The form of both stands there.
#![tactic(auto)]

mod calls;
mod digest;
mod show;

use calls::{Room, call};
use shown::turns::every;
use std::io;

// The cells of the longest table.
const ROOM: usize = 262144;

// The tables and scratch at their largest, and some room past that, so that longer ones can be lent too; and room for the longest text that
// the cases have.
fn main(rt: HostRuntime) -> io::Result<()> {
    let mut input = rt.stdin();
    let mut out = rt.stdout();
    let mut rates = [0u32; ROOM];
    let mut distortions = [0u32; ROOM];
    let mut text = [0u8; 2097152];
    let mut scratch = [0u8; ROOM];
    every(|| {
        let room = Room {
            rates: &mut rates,
            distortions: &mut distortions,
            text: &mut text,
            scratch: &mut scratch,
        };
        call(&mut input, &mut out, room)
    })
}
