// What a call answers: each number with a space after it.
use std::io;
use std::io::Write;
use tables::refusal::{Refusal, carried, number};

pub fn put<W: Write>(out: &mut W, x: u64) -> io::Result<()> {
    write!(out, "{x} ")
}

// Behind the letter that says what is counted, and with a full stop: one of many in what is shown of a buffer.
pub fn put_marked<W: Write>(out: &mut W, letter: &str, x: u64) -> io::Result<()> {
    write!(out, "{letter}{x}.")
}

// A refusal, and what it carries.
pub fn put_refusal<W: Write>(out: &mut W, refusal: Refusal) -> io::Result<()> {
    put(out, number(refusal))?;
    put(out, carried(refusal))
}

// 0 and the numbers that a call gives, or its refusal.
pub fn put_answer<const N: usize, W: Write>(
    out: &mut W,
    answer: Result<[u64; N], Refusal>,
) -> io::Result<()> {
    match answer {
        Ok(given) => {
            put(out, 0)?;
            for x in given {
                put(out, x)?;
            }
            Ok(())
        }
        Err(refusal) => put_refusal(out, refusal),
    }
}

pub fn end_line<W: Write>(out: &mut W) -> io::Result<()> {
    writeln!(out)
}
