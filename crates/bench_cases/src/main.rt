// What bench writes for many texts that arrive on one standard input, and in what pieces they are fed. Both what it reads and what it must
// write were made by tests/second/vectors.py, which shares nothing with the library.
//
// The input is cases. A number is low byte first. A case is a byte 1, the length of the text (four bytes), the size of the pieces in which
// it is fed (two bytes, 1 to 4,096), and the text. Any other byte, or the end of the input, ends the run. Behind the lines for a text a line
// "-" is written, so that cases are told apart.
#![tactic(auto)]

mod cases;

use cases::Room;
use shown::turns::every;
use std::io;

fn main(rt: HostRuntime) -> io::Result<()> {
    let mut input = rt.stdin();
    let mut out = rt.stdout();
    let mut room = Room {
        piece: [0; 4096],
        numbers: [0; 8196],
        lines: [0; 8704],
    };
    every(|| room.case(&mut input, &mut out))
}
