// The two calls, each with a buffer filled anew, and with what it answers and what the buffer holds then written out.
use crate::change::{fields, runs};
use keys::cost::{Dist, Rate};
use planfile::read::{PlanRead, read_plan};
use planfile::write::write_plan;
use rules::Fields;
use shown::answer::{end_line, put_answer};
use shown::input::{number, place};
use shown::lent::{fill, put_lent};
use std::io;
use std::io::{Read, Write};
use tables::refusal::Refusal;

// Where the pattern of a buffer before a call starts.
const FROM: usize = 13;

// What stays from call to call: the file, the writer's settings and its fields, and the buffer that both are lent.
#[derive(Drop)]
pub struct Kept {
    pub file: [u8; 4608],
    pub given: [u8; 2048],
    pub told: [u64; 12],
    pub lent: [u8; 4608],
}

// What is read of a plan: the fields that every version has, the version, and the mark of weights.
fn numbers(read: PlanRead) -> [u64; 13] {
    let f = read.fields;
    [
        f.scans,
        f.settings,
        f.law,
        f.kind,
        f.budget,
        f.n,
        f.d,
        f.rate.0,
        f.distortion.0,
        f.peak,
        f.floor.0,
        read.version,
        f.weighted,
    ]
}

fn of_numbers(told: &[u64; 12]) -> Fields {
    let [
        scans,
        settings,
        law,
        kind,
        budget,
        n,
        d,
        rate,
        distortion,
        peak,
        floor,
        weighted,
    ] = *told;
    Fields {
        scans,
        settings,
        law,
        kind,
        budget,
        n,
        d,
        rate: Rate(rate),
        distortion: Dist(distortion),
        peak,
        floor: Dist(floor),
        weighted,
    }
}

// What a call answered, and what it left in the buffer.
fn put_called<const N: usize, W: Write>(
    out: &mut W,
    answer: Result<[u64; N], Refusal>,
    lent: &[u8],
) -> io::Result<()> {
    put_answer(out, answer)?;
    put_lent(out, "b", lent, FROM)?;
    end_line(out)
}

impl Kept {
    fn read<R: Read, W: Write>(&mut self, input: &mut R, out: &mut W) -> io::Result<()> {
        runs(input, &mut self.file)?;
        let f = place::<2>(input, self.file.len())?;
        let n = place::<2>(input, self.lent.len())?;
        let file = &self.file[..f];
        let lent = &mut self.lent[..];
        let lent = &mut lent[..n];
        fill(lent, FROM);
        let answer = read_plan(file, lent);
        put_called(out, answer.map(numbers), lent)
    }

    fn write<R: Read, W: Write>(&mut self, input: &mut R, out: &mut W) -> io::Result<()> {
        fields(input, &mut self.told)?;
        runs(input, &mut self.given)?;
        let g = place::<2>(input, self.given.len())?;
        let n = place::<2>(input, self.lent.len())?;
        let told = of_numbers(&self.told);
        let given = &self.given[..g];
        let lent = &mut self.lent[..];
        let lent = &mut lent[..n];
        fill(lent, FROM);
        let answer = write_plan(told, given, lent);
        put_called(out, answer.map(|length| [length]), lent)
    }

    // One call; false where there is none.
    pub fn call<R: Read, W: Write>(&mut self, input: &mut R, out: &mut W) -> io::Result<bool> {
        match number::<1>(input)? {
            1 => self.read(input, out)?,
            2 => self.write(input, out)?,
            _ => return Ok(false),
        }
        Ok(true)
    }
}
