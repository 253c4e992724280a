// The room question at the limits and on both sides of them: each line is C, N and Q as asked, then the number that comes back (0: no
// refusal) and the values. What it must write was written by tests/second/room.py.
#![tactic(auto)]

use room::room_for;
use shown::answer::{end_line, put, put_answer};
use std::io;
use std::io::Write;

const CHANNELS: [u64; 8] = [
    0,
    1,
    4099,
    4100,
    1048576,
    1048577,
    4294967296,
    18446744073709551615,
];

const SCANS: [u64; 6] = [0, 1, 1024, 1025, 4294967296, 18446744073709551615];

const SETTINGS: [u64; 6] = [0, 1, 16, 17, 4294967296, 18446744073709551615];

fn put_line<W: Write>(out: &mut W, channels: u64, scans: u64, settings: u64) -> io::Result<()> {
    put(out, channels)?;
    put(out, scans)?;
    put(out, settings)?;
    let answer = room_for(channels, scans, settings);
    put_answer(
        out,
        answer.map(|room| [room.cells, room.bytes, room.scratch]),
    )?;
    end_line(out)
}

fn main(rt: HostRuntime) -> io::Result<()> {
    let mut out = rt.stdout();
    for channels in CHANNELS {
        for scans in SCANS {
            for settings in SETTINGS {
                put_line(&mut out, channels, scans, settings)?;
            }
        }
    }
    Ok(())
}
