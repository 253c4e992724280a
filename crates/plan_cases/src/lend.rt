// Groups of calls: the tables and the weights are made once, and each call gets them with both buffers filled anew.
use crate::ask::Ask;
use checks::lent::Tables;
use shown::answer::end_line;
use shown::group::{Group, Origin};
use shown::input::{number, place};
use shown::lent::{fill, put_lent};
use std::io;
use std::io::{Read, Write};

// Where the patterns of the two buffers before a call start.
const PLAN_FROM: usize = 13;

const SCRATCH_FROM: usize = 100;

// Room for what is lent, from group to group.
#[derive(Drop)]
pub struct Room<'a> {
    pub rates: &'a mut [u32],
    pub distortions: &'a mut [u32],
    pub weights: &'a mut [u8],
    pub plan: &'a mut [u8],
    pub scratch: &'a mut [u8],
}

// The buffers of a call.
#[derive(Drop)]
pub struct Lent<'a> {
    pub plan: &'a mut [u8],
    pub scratch: &'a mut [u8],
}

impl Lent<'_> {
    fn refill(&mut self) {
        fill(self.plan, PLAN_FROM);
        fill(self.scratch, SCRATCH_FROM);
    }

    // As the call left them.
    fn put<W: Write>(&self, out: &mut W) -> io::Result<()> {
        put_lent(out, "p", self.plan, PLAN_FROM)?;
        put_lent(out, "s", self.scratch, SCRATCH_FROM)
    }
}

// One call.
fn one<R: Read, W: Write>(
    input: &mut R,
    out: &mut W,
    tables: &Tables,
    lent: &mut Lent,
) -> io::Result<()> {
    let ask = Ask::read(input)?;
    lent.refill();
    ask.put(out, tables, lent)?;
    lent.put(out)?;
    end_line(out)
}

// One group; false where the input ends.
pub fn group<R: Read, W: Write>(input: &mut R, out: &mut W, room: Room) -> io::Result<bool> {
    let Some(origin) = Origin::new(number::<8>(input)?) else {
        return Ok(false);
    };
    let Room {
        rates,
        distortions,
        weights,
        plan,
        scratch,
    } = room;
    let group = Group::read(input, origin, rates, distortions, weights)?;
    let p = place::<8>(input, plan.len())?;
    let s = place::<8>(input, scratch.len())?;
    let count = number::<8>(input)?;
    let tables = group.tables(input)?;
    let mut lent = Lent {
        plan: &mut plan[..p],
        scratch: &mut scratch[..s],
    };
    for _ in 0..count {
        one(input, out, &tables, &mut lent)?;
    }
    Ok(true)
}
