// Groups of calls: the tables and the weights are made once, and lent to each call of the group.
use crate::coded::coded;
use crate::input::{least, number, place, read_full};
use crate::source::Source;
use checks::lent::Tables;
use std::io;
use std::io::Read;

// Where the cells and the weights of a group come from.
#[derive(Clone, Copy)]
pub struct Origin {
    cells: Source,
    weighed: bool,
}

impl Origin {
    // By the first number of a group, which is more by 4 where weights of its own follow; none: the run ends.
    pub fn new(n: u64) -> Option<Origin> {
        match n {
            0 => None,
            1..=4 => Some(Origin {
                cells: Source::from(n),
                weighed: false,
            }),
            _ => Some(Origin {
                cells: Source::from(n - 4),
                weighed: true,
            }),
        }
    }

    // By the first number of a group that never has any.
    pub fn unweighed(n: u64) -> Option<Origin> {
        match n {
            0 => None,
            _ => Some(Origin {
                cells: Source::from(n),
                weighed: false,
            }),
        }
    }
}

// A group, of which the numbers and the lengths of the tables are read.
#[derive(Drop)]
pub struct Group<'a> {
    origin: Origin,
    scans: u64,
    settings: u64,
    law: u64,
    rates: &'a mut [u32],
    distortions: &'a mut [u32],
    weights: &'a mut [u8],
}

impl<'a> Group<'a> {
    // The tables and the weights are as long as there is room for, and stay from group to group.
    pub fn read<R: Read>(
        input: &mut R,
        origin: Origin,
        rates: &'a mut [u32],
        distortions: &'a mut [u32],
        weights: &'a mut [u8],
    ) -> io::Result<Group<'a>> {
        let scans = number::<8>(input)?;
        let settings = number::<8>(input)?;
        let law = number::<8>(input)?;
        let r = place::<8>(input, rates.len())?;
        let d = place::<8>(input, distortions.len())?;
        Ok(Group {
            origin,
            scans,
            settings,
            law,
            rates: &mut rates[..r],
            distortions: &mut distortions[..d],
            weights,
        })
    }

    // The tables, from what follows: how many weights there are, the cells, and the weights. Of a group that has none it is a 1 for each scan.
    pub fn tables<R: Read>(self, input: &mut R) -> io::Result<Tables<'a>> {
        let Group {
            origin,
            scans,
            settings,
            law,
            rates,
            distortions,
            weights,
        } = self;
        let w = if origin.weighed {
            place::<8>(input, weights.len())?
        } else {
            least(scans, weights.len())
        };
        let weights = &mut weights[..w];
        origin.cells.make(input, rates, coded)?;
        origin.cells.make(input, distortions, coded)?;
        if origin.weighed {
            read_full(input, weights)?;
        } else {
            weights.fill(1);
        }
        Ok(Tables {
            scans,
            settings,
            law,
            rates,
            distortions,
            weights,
        })
    }
}
