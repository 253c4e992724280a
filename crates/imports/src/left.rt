// The lines of a text, one after the other: what each says, if it is not malformed.
ghost use Rattle.std.specs.Prelude.{◌≡◌};
ghost use Rattle.std.specs.Iterator.{YieldsFirstBy, item_count};
ghost use Rattle.lines.specs.Parts.{said};
ghost use Rattle.imports.specs.Left.{said_by, said_left};

use lines::ends::behind;
use lines::says::Entry;
use plain::line::line_at;

// What is left of a text.
#[derive(Drop)]
pub struct Left<'a> {
    pub text: &'a [u8],
}

pub fn lines_of(text: &[u8]) -> Left<'_>
    ensures { said_left result ≡ said_by text.now }
{
    Left { text }
}

impl<'a> Iterator for Left<'a> {
    type Item = Option<Entry>;

    ghost next_gives = { YieldsFirstBy said said_left };

    ghost remaining = { item_count said_left };

    fn next(&mut self) -> Option<Option<Entry>> {
        if self.text.is_empty() {
            return None;
        }
        let found = line_at(self.text, 0);
        self.text = &self.text[behind(found.end, self.text.len())..];
        Some(found.line)
    }
}
