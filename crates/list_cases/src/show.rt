// What a call left in a table or a text.
use crate::digest::digest;
use shown::answer::put_marked;
use shown::lent::{Cell, put_lent};
use std::io;
use std::io::Write;

// How it is shown.
#[derive(Clone, Copy)]
pub enum Show {
    Whole,
    // "c", the digest, and a full stop
    Digest,
}

impl From<u64> for Show {
    fn from(n: u64) -> Show {
        match n {
            1 => Show::Digest,
            _ => Show::Whole,
        }
    }
}

impl Show {
    // What was filled from `from`, behind the letter that says which it is.
    pub fn put<T: Cell + Into<u32>, W: Write>(
        self,
        out: &mut W,
        letter: &str,
        lent: &[T],
        from: usize,
    ) -> io::Result<()> {
        match self {
            Show::Whole => put_lent(out, letter, lent, from),
            Show::Digest => {
                write!(out, "{letter}")?;
                put_marked(out, "c", digest(lent))?;
                write!(out, " ")
            }
        }
    }
}
