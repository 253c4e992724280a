// The four calls, each with what it answers written out.
use crate::lend::Lent;
use checks::lent::Tables;
use planner::average::average_plan;
use planner::ceiling::ceiling_plan;
use planner::minmax::minmax_plan;
use planner::multiplier::multiplier_plan;
use shown::answer::put_answer;
use shown::input::number;
use std::io;
use std::io::{Read, Write};
use walk::Totals;

// What is asked.
#[derive(Clone, Copy)]
pub enum Ask {
    Ceiling { ceiling: u32 },
    Multiplier { n: u64, d: u64 },
    Minmax { budget: u64 },
    Average { budget: u64 },
}

fn totals(t: Totals) -> [u64; 3] {
    [t.rate.0, t.distortion.0, t.peak]
}

impl Ask {
    // By the three numbers of a call, of which the first says which: of any other it is the average plan. A ceiling is a 32-bit number: a larger
    // one stands for the largest.
    pub fn read<R: Read>(input: &mut R) -> io::Result<Ask> {
        let which = number::<8>(input)?;
        let limit = number::<8>(input)?;
        let other = number::<8>(input)?;
        Ok(match which {
            1 => Ask::Ceiling {
                ceiling: u32::try_from(limit).unwrap_or(u32::MAX),
            },
            2 => Ask::Multiplier { n: limit, d: other },
            3 => Ask::Minmax { budget: limit },
            _ => Ask::Average { budget: limit },
        })
    }

    pub fn put<W: Write>(self, out: &mut W, tables: &Tables, lent: &mut Lent) -> io::Result<()> {
        let plan = &mut *lent.plan;
        let scratch = &mut *lent.scratch;
        match self {
            Ask::Ceiling { ceiling } => put_answer(
                out,
                ceiling_plan(tables, ceiling, plan, scratch).map(totals),
            ),
            Ask::Multiplier { n, d } => put_answer(
                out,
                multiplier_plan(tables, n, d, plan, scratch).map(totals),
            ),
            Ask::Minmax { budget } => put_answer(
                out,
                minmax_plan(tables, budget, plan, scratch).map(|p| {
                    let t = p.totals;
                    [p.ceiling, t.rate.0, t.distortion.0, t.peak]
                }),
            ),
            Ask::Average { budget } => put_answer(
                out,
                average_plan(tables, budget, plan, scratch).map(|p| {
                    let t = p.totals;
                    [p.n, p.d, t.rate.0, t.distortion.0, t.peak, p.floor.0]
                }),
            ),
        }
    }
}
