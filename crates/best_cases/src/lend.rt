// Groups of calls: the tables and the weights are made once, and each call gets them with its three buffers filled anew.
use best::plan::best_plan;
use checks::lent::Tables;
use shown::answer::{end_line, put_answer};
use shown::group::{Group, Origin};
use shown::input::{number, place};
use shown::lent::{fill, put_lent};
use std::io;
use std::io::{Read, Write};

// Where the patterns of the two byte buffers before a call start, and the cells of the totals.
const PLAN_FROM: usize = 13;

const CHOICES_FROM: usize = 100;

const TOTALS_FROM: usize = 2000000000;

// Room for what is lent, from group to group.
#[derive(Drop)]
pub struct Room<'a> {
    pub rates: &'a mut [u32],
    pub distortions: &'a mut [u32],
    pub weights: &'a mut [u8],
    pub plan: &'a mut [u8],
    pub choices: &'a mut [u8],
    pub totals: &'a mut [u32],
}

// The buffers of a call.
#[derive(Drop)]
struct Lent<'a> {
    plan: &'a mut [u8],
    choices: &'a mut [u8],
    totals: &'a mut [u32],
}

impl Lent<'_> {
    fn refill(&mut self) {
        fill(self.plan, PLAN_FROM);
        fill(self.choices, CHOICES_FROM);
        fill(self.totals, TOTALS_FROM);
    }

    // As the call left them.
    fn put<W: Write>(&self, out: &mut W) -> io::Result<()> {
        put_lent(out, "p", self.plan, PLAN_FROM)?;
        put_lent(out, "s", self.choices, CHOICES_FROM)?;
        put_lent(out, "t", self.totals, TOTALS_FROM)
    }
}

// One call.
fn one<R: Read, W: Write>(
    input: &mut R,
    out: &mut W,
    tables: &Tables,
    lent: &mut Lent,
) -> io::Result<()> {
    let budget = number::<8>(input)?;
    lent.refill();
    let answer = best_plan(tables, budget, lent.plan, lent.choices, lent.totals);
    put_answer(out, answer.map(|t| [t.rate.0, t.distortion.0, t.peak]))?;
    lent.put(out)?;
    end_line(out)
}

// One group; false where the input ends.
pub fn group<R: Read, W: Write>(input: &mut R, out: &mut W, room: Room) -> io::Result<bool> {
    let Some(origin) = Origin::new(number::<8>(input)?) else {
        return Ok(false);
    };
    let Room {
        rates,
        distortions,
        weights,
        plan,
        choices,
        totals,
    } = room;
    let group = Group::read(input, origin, rates, distortions, weights)?;
    let p = place::<8>(input, plan.len())?;
    let s = place::<8>(input, choices.len())?;
    let t = place::<8>(input, totals.len())?;
    let count = number::<8>(input)?;
    let tables = group.tables(input)?;
    let mut lent = Lent {
        plan: &mut plan[..p],
        choices: &mut choices[..s],
        totals: &mut totals[..t],
    };
    for _ in 0..count {
        one(input, out, &tables, &mut lent)?;
    }
    Ok(true)
}
