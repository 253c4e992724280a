// The two calls: what is lent is made, the call answers, and a line says what it answered and what it left.
use crate::show::Show;
use exports::export::export;
use imports::import::import;
use shown::answer::{end_line, put_answer};
use shown::input::{bytes, number, place, read_full};
use shown::lent::{fill, put_lent};
use shown::source::Source;
use std::io;
use std::io::{Read, Write};

// Where the cells of the two tables before an import start, and the pattern of the text before an export.
const RATES_FROM: usize = 2000000000;

const DISTORTIONS_FROM: usize = 3000000000;

const TEXT_FROM: usize = 13;

// Room for what is lent, from call to call; or so much of it as one call is lent.
#[derive(Drop)]
pub struct Room<'a> {
    pub rates: &'a mut [u32],
    pub distortions: &'a mut [u32],
    pub text: &'a mut [u8],
    pub scratch: &'a mut [u8],
}

// What every call says: how to show what it leaves, and the sizes of the tables.
#[derive(Clone, Copy)]
struct Case {
    show: Show,
    scans: u64,
    settings: u64,
}

// A piece of the input takes the place of what is kept there, as far as there is room.
fn piece<R: Read>(input: &mut R, text: &mut [u8]) -> io::Result<()> {
    let start = place::<4>(input, text.len())?;
    let length = place::<4>(input, text.len() - start)?;
    read_full(input, &mut text[start..start + length])?;
    Ok(())
}

// An import of a text, into tables and scratch filled anew.
fn import_call<R: Read, W: Write>(
    input: &mut R,
    out: &mut W,
    case: Case,
    room: Room,
) -> io::Result<()> {
    let Room {
        rates,
        distortions,
        text,
        scratch,
    } = room;
    let s = place::<4>(input, scratch.len())?;
    let from = number::<1>(input)? as usize;
    let t = place::<4>(input, text.len())?;
    piece(input, text)?;
    let scratch = &mut scratch[..s];
    fill(rates, RATES_FROM);
    fill(distortions, DISTORTIONS_FROM);
    fill(scratch, from);
    let answer = import(
        case.scans,
        case.settings,
        &text[..t],
        rates,
        distortions,
        scratch,
    );
    put_answer(out, answer.map(|_| []))?;
    case.show.put(out, "r", rates, RATES_FROM)?;
    case.show.put(out, "d", distortions, DISTORTIONS_FROM)?;
    put_lent(out, "s", scratch, from)?;
    end_line(out)
}

// The next cell of the input.
fn cell<R: Read>(input: &mut R) -> io::Result<u32> {
    Ok(u32::from_le_bytes(bytes::<4>(input)?))
}

// An export of tables, whose cells are given four bytes each, to a text filled anew.
fn export_call<R: Read, W: Write>(
    input: &mut R,
    out: &mut W,
    case: Case,
    room: Room,
) -> io::Result<()> {
    let Room {
        rates,
        distortions,
        text,
        ..
    } = room;
    let t = place::<4>(input, text.len())?;
    let source = Source::from(number::<1>(input)?);
    source.make(input, rates, cell)?;
    source.make(input, distortions, cell)?;
    let text = &mut text[..t];
    fill(text, TEXT_FROM);
    let answer = export(case.scans, case.settings, rates, distortions, text);
    put_answer(out, answer.map(|length| [length]))?;
    case.show.put(out, "t", text, TEXT_FROM)?;
    end_line(out)
}

// Which call it is.
#[derive(Clone, Copy)]
enum Which {
    Import,
    Export,
}

// One call; false where there is none. What both say comes first, and then the one or the other.
pub fn call<R: Read, W: Write>(input: &mut R, out: &mut W, room: Room) -> io::Result<bool> {
    let which = match number::<1>(input)? {
        1 => Which::Import,
        2 => Which::Export,
        _ => return Ok(false),
    };
    let Room {
        rates,
        distortions,
        text,
        scratch,
    } = room;
    let case = Case {
        show: Show::from(number::<1>(input)?),
        scans: number::<8>(input)?,
        settings: number::<8>(input)?,
    };
    let r = place::<4>(input, rates.len())?;
    let d = place::<4>(input, distortions.len())?;
    let room = Room {
        rates: &mut rates[..r],
        distortions: &mut distortions[..d],
        text,
        scratch,
    };
    match which {
        Which::Import => import_call(input, out, case, room)?,
        Which::Export => export_call(input, out, case, room)?,
    }
    Ok(true)
}
