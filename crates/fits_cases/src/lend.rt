// Groups of calls: the tables are made once for all calls of a group.
use checks::lent::Tables;
use fits::asked::Asked;
use fits::call::fits;
use shown::answer::{end_line, put_answer};
use shown::group::{Group, Origin};
use shown::input::number;
use std::io;
use std::io::{Read, Write};

// One call.
fn one<R: Read, W: Write>(input: &mut R, out: &mut W, t: &Tables) -> io::Result<()> {
    let asked = Asked {
        scans: t.scans,
        settings: t.settings,
        law: t.law,
        budget: number::<8>(input)?,
        rates: t.rates,
        distortions: t.distortions,
    };
    put_answer(out, fits(&asked).map(|yes| [u64::from(yes)]))?;
    end_line(out)
}

// One group; false where the input ends.
pub fn group<R: Read, W: Write>(
    input: &mut R,
    out: &mut W,
    rates: &mut [u32],
    distortions: &mut [u32],
) -> io::Result<bool> {
    let Some(origin) = Origin::unweighed(number::<8>(input)?) else {
        return Ok(false);
    };
    let group = Group::read(input, origin, rates, distortions, &mut [])?;
    let count = number::<8>(input)?;
    let tables = group.tables(input)?;
    for _ in 0..count {
        one(input, out, &tables)?;
    }
    Ok(true)
}
