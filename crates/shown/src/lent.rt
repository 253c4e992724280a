// A lent buffer or table, filled before a call and shown after it.
//
// Every cell is shown: a run of cells that are as they were filled is "k", how many, and a full stop; a run of forbidden rates is "f", how many,
// and a full stop; a run of zeros is "z", how many, and a full stop; any other is shown cell by cell.
ghost use Rattle.std.specs.Prelude.{◌<◌};

use crate::answer::put_marked;
use std::io;
use std::io::Write;
use tables::limits::FORBIDDEN;

// What the cells of a run are.
#[derive(Clone, Copy, PartialEq, Eq)]
pub enum Kind {
    // as they were filled
    Kept,
    Forbidden,
    Zero,
    Other,
}

// A byte of a buffer, or a cell of a table.
pub trait Cell: Copy + PartialEq {
    // Cell i before a call, from `from` on; no call writes it there, so that whatever is zeroed, written or left shows.
    fn filled(i: usize, from: usize) -> Self;

    // Of a cell that is not as it was filled.
    fn kind(self) -> Kind;

    // Cells that are shown one by one.
    fn put_each<W: Write>(out: &mut W, cells: &[Self]) -> io::Result<()>;
}

// The hexadecimal digit of a number below 16.
fn digit(x: u8) -> u8
    requires { x < 16 }
{
    if x < 10 { b'0' + x } else { b'a' + (x - 10) }
}

// Byte i of a buffer is 1 and (7i + from) modulo 251, never zero; shown by its two hexadecimal digits.
impl Cell for u8 {
    fn filled(i: usize, from: usize) -> u8 {
        ((i % 251 * 7 + from % 251) % 251 + 1) as u8
    }

    fn kind(self) -> Kind {
        match self {
            0 => Kind::Zero,
            _ => Kind::Other,
        }
    }

    fn put_each<W: Write>(out: &mut W, cells: &[u8]) -> io::Result<()> {
        for part in cells.chunks(64) {
            let mut text = [0u8; 128];
            for (i, x) in part.iter().enumerate() {
                text[2 * i] = digit(x / 16);
                text[2 * i + 1] = digit(x % 16);
            }
            out.write_all(&text[..2 * part.len()])?;
        }
        Ok(())
    }
}

// Cell i of a table is `from` and i; shown by its decimal digits and a full stop. No table has as many cells as there are numbers of 32 bits,
// and the wrapping sum and the mask, which change nothing then, ask nothing of a caller.
impl Cell for u32 {
    fn filled(i: usize, from: usize) -> u32 {
        (from.wrapping_add(i) & 0xffff_ffff) as u32
    }

    fn kind(self) -> Kind {
        match self {
            FORBIDDEN => Kind::Forbidden,
            0 => Kind::Zero,
            _ => Kind::Other,
        }
    }

    fn put_each<W: Write>(out: &mut W, cells: &[u32]) -> io::Result<()> {
        for x in cells {
            write!(out, "{x}.")?;
        }
        Ok(())
    }
}

pub fn fill<T: Cell>(lent: &mut [T], from: usize) {
    for (i, cell) in lent.iter_mut().enumerate() {
        *cell = T::filled(i, from);
    }
}

fn kind_at<T: Cell>(cell: T, i: usize, from: usize) -> Kind {
    if cell == T::filled(i, from) {
        Kind::Kept
    } else {
        cell.kind()
    }
}

fn put_run<T: Cell, W: Write>(out: &mut W, cells: &[T], kind: Kind) -> io::Result<()> {
    let count = cells.len() as u64;
    match kind {
        Kind::Kept => put_marked(out, "k", count),
        Kind::Forbidden => put_marked(out, "f", count),
        Kind::Zero => put_marked(out, "z", count),
        Kind::Other => T::put_each(out, cells),
    }
}

// What was filled from `from`, after the call, behind the letter that says which it is.
pub fn put_lent<T: Cell, W: Write>(
    out: &mut W,
    letter: &str,
    lent: &[T],
    from: usize,
) -> io::Result<()> {
    write!(out, "{letter}")?;
    // The run so far; before the first cell it is one of no cells, of which nothing is shown.
    let mut start = 0;
    let mut kind = Kind::Other;
    for (i, cell) in lent.iter().enumerate() {
        let next = kind_at(*cell, i, from);
        if next != kind {
            put_run(out, &lent[start..i], kind)?;
            start = i;
            kind = next;
        }
    }
    put_run(out, &lent[start..], kind)?;
    write!(out, " ")
}
