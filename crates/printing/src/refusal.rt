// A refusal in a line.
ghost use Rattle.std.specs.Prelude.{◌+◌, ◌≤◌, length};
ghost use Rattle.tables.specs.Refusals.{number_of, carried_by};
ghost use Rattle.printing.specs.Lines.{refusal_text};
ghost use Rattle.printing.specs.Puts.{Puts};

use crate::put::Text;
use tables::refusal::{Refusal, number};

impl Text<'_> {
    // The word and its number, and for 7, an illegal cell, where it stands.
    pub fn put_refusal(&mut self, r: Refusal)
        requires { self.old.at + 53 ≤ length self.old.out.now }
        ensures put { Puts self.old (refusal_text (number_of r) (carried_by r)) self.new }
        ensures upper_bound { self.new.at ≤ self.old.at + 53 }
    {
        self.put_named(b"refused", number(r));
        if let Refusal::Cell(k) = r {
            self.put_named(b"at", k);
        }
    }
}
