// What bench does with the numbers of a text: whether it has read enough, and what it writes.
#![tactic(auto)]

mod judge;
mod lines;

ghost use Rattle.std.specs.Prelude.{◌≡◌, true, ◌||◌, ◌&&◌, ◌≤◌, leb, length, take};
ghost use Rattle.workbench.specs.Request.{Request};
ghost use Rattle.workbench.specs.Parts.{Requests, Blank, WrittenIn};
ghost use Rattle.workbench.specs.Done.{settles, Decided, Answers};

use crate::judge::{Taken, Unplanned};
use printing::put::Text;
use reading::{State, feed};

// Has enough been read? A word that has ended was not taken, or N, Q or law is out of range, or the table is too large: nothing that may
// follow changes what is asked then, and no more is read.
pub fn enough(s: State, numbers: &[u32]) -> bool
    requires { 8196 ≤ length numbers.now }
    ensures value { result ≡ (s.more || (leb 4 s.taken && settles numbers.now)) }
    ensures decided { result ≡ true → Decided numbers.now s }
{
    let taken = Taken { state: s, numbers };
    s.more || (4 <= s.taken && taken.first_four().is_err())
}

// Puts the lines for the text of which this was taken; a separator has ended it.
fn put_answer(text: &mut Text, taken: &Taken)
    requires { Blank text.old }
    ensures { (a : Request) × Requests taken.now.numbers.now taken.now.state a × WrittenIn a text.old text.new }
{
    match taken.judge() {
        Ok(cells) => lines::put_planned(text, taken, cells),
        Err(Unplanned::OutOfRange(r)) => lines::put_refused(text, r),
        Err(Unplanned::BadInput) => text.put(b"bad input\n"),
        Err(Unplanned::TooLarge) => text.put(b"too large\n"),
    }
}

// Writes the lines for the text that was read, and answers their length. A separator closes the last word as the end of the text does.
pub fn answer(s: State, numbers: &mut [u32], out: &mut [u8]) -> usize
    requires in_bounds { 8196 ≤ length numbers.old }
    requires in_bounds_2 { 8704 ≤ length out.old }
    ensures { (result ≤ length out.new) × Answers numbers.old s (take result out.new) }
{
    let ended = feed(s, b" ", numbers);
    let taken = Taken {
        state: ended,
        numbers,
    };
    let mut text = Text { out, at: 0 };
    put_answer(&mut text, &taken);
    text.at
}
