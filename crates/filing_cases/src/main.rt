// The average and the minmax plans of tables T and U under law 0, and of table V under laws 0 to 3, at some budgets, all weights 1, and of
// table T under law 1 with four other pairs of weights and with 1 1, filed: each line is the number that comes back from the planning call (0:
// a plan), and for a plan the length of its file and every byte of the buffer that the file was written to.
// What it must write was made by tests/second/filing_vectors.py.
#![tactic(auto)]

use checks::lent::Tables;
use filing::{average_fields, minmax_fields};
use planfile::write::write_plan;
use planner::average::average_plan;
use planner::minmax::minmax_plan;
use rules::Fields;
use shown::answer::{end_line, put_answer, put_refusal};
use shown::lent::{fill, put_lent};
use std::io;
use std::io::Write;
use tables::refusal::Refusal;

// Where the pattern of the file buffer before a call starts.
const FROM: usize = 13;

// The file of a plan, written to a buffer a little longer than needed.
fn put_file<W: Write>(out: &mut W, fields: Fields, plan: &[u8]) -> io::Result<()> {
    let mut file = [0u8; 1029];
    fill(&mut file, FROM);
    let written = write_plan(fields, plan, &mut file);
    put_answer(out, written.map(|length| [length]))?;
    put_lent(out, "b", &file, FROM)
}

// A planning call, by the fields of its plan, and the file of that.
fn put_filed<W: Write, F: FnOnce(&mut [u8], &mut [u8]) -> Result<Fields, Refusal>>(
    out: &mut W,
    plan_fields: F,
) -> io::Result<()>
    requires { F.IsAlwaysCallable plan_fields }
{
    let mut plan = [0u8; 2];
    let mut scratch = [0u8; 8];
    match plan_fields(&mut plan, &mut scratch) {
        Ok(fields) => put_file(out, fields, &plan)?,
        Err(refusal) => put_refusal(out, refusal)?,
    }
    end_line(out)
}

fn both<W: Write>(out: &mut W, tables: &Tables, budget: u64) -> io::Result<()> {
    put_filed(out, |plan, scratch| {
        average_plan(tables, budget, plan, scratch).map(|p| average_fields(tables, budget, p))
    })?;
    put_filed(out, |plan, scratch| {
        minmax_plan(tables, budget, plan, scratch).map(|p| minmax_fields(tables, budget, p))
    })
}

const T: Tables = Tables {
    scans: 2,
    settings: 2,
    law: 0,
    rates: &[10, 4, 8, 3, 9, 5],
    distortions: &[2, 7, 3, 6, 4, 10],
    weights: &[1, 1],
};

const U: Tables = Tables {
    scans: 1,
    settings: 3,
    law: 0,
    rates: &[9, 6, 2],
    distortions: &[0, 8, 10],
    weights: &[1],
};

const V: Tables = Tables {
    scans: 2,
    settings: 4,
    law: 0,
    rates: &[5, 5, 5, 5, 9, 9, 4, 1, 9, 9, 9, 9, 6, 9, 9, 9, 2, 9, 9, 9],
    distortions: &[1, 1, 1, 1, 3, 3, 3, 3, 3, 3, 3, 3, 3, 3, 3, 3, 3, 3, 3, 3],
    weights: &[1, 1],
};

fn main(rt: HostRuntime) -> io::Result<()> {
    let mut out = rt.stdout();
    for budget in [8, 9, 12, 13, 17, 18] {
        both(&mut out, &T, budget)?;
    }
    for budget in [1, 7, 9] {
        both(&mut out, &U, budget)?;
    }
    for (law, budget) in [(0, 6), (1, 7), (1, 9), (2, 6), (2, 7), (3, 7)] {
        both(&mut out, &Tables { law, ..V }, budget)?;
    }
    for (budget, weights) in [
        (17, [2, 1]),
        (12, [2, 1]),
        (13, [0, 1]),
        (13, [1, 0]),
        (12, [1, 0]),
        (9, [0, 0]),
        (17, [1, 1]),
    ] {
        let weighed = Tables {
            law: 1,
            weights: &weights,
            ..T
        };
        both(&mut out, &weighed, budget)?;
    }
    Ok(())
}
