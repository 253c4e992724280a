// Where the cells of a table come from.
use crate::stream::generated;
use std::io;
use std::io::Read;

#[derive(Clone, Copy)]
pub enum Source {
    // The table stays as it is.
    Kept,
    // The cells follow in the input.
    Given,
    // The numbers of a generator follow.
    Generated,
}

impl From<u64> for Source {
    fn from(n: u64) -> Source {
        match n {
            2 => Source::Given,
            3 => Source::Generated,
            _ => Source::Kept,
        }
    }
}

impl Source {
    // The cells of one table, where `next` reads one that is given.
    pub fn make<R: Read, F: FnMut(&mut R) -> io::Result<u32>>(
        self,
        input: &mut R,
        table: &mut [u32],
        mut next: F,
    ) -> io::Result<()>
        requires { F.IsAlwaysCallable next }
    {
        match self {
            Source::Kept => Ok(()),
            Source::Given => {
                for cell in table.iter_mut() {
                    *cell = next(input)?;
                }
                Ok(())
            }
            Source::Generated => generated(input, table),
        }
    }
}
