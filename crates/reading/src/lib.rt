// The numbers of a text that arrives in pieces. They are judged and taken as they come, so a text may be of any length: what is kept is the
// word that stands open, how many numbers have been taken, and whether a word stands after them that was not.
#![tactic(auto)]

ghost use Rattle.std.specs.Prelude.{◌≡◌, true, [], ◌∷◌, ◌+◌, ◌*◌, ◌-◌, ◌<◌, suc, min, length};
ghost use Rattle.reading.specs.Text.{separator, digit, most_number};
ghost use Rattle.reading.specs.Fed.{Starts, Feeds};
ghost use Rattle.reading.specs.Parts.{Grows, Closes, refusal};

// What stands for every value over the limit, which is that of 32 bits.
// A number and no Option: the value is cut off just past the limit, as `further` promises.
const OVER: u64 = 4294967296;

// The word that stands open: none, digits alone with their value (cut off just past the limit), or one with another byte in it.
#[derive(Clone, Copy)]
pub enum Word {
    Between,
    Digits(u64),
    Other,
}

// No heap: the numbers come one after another into what is lent.
#[derive(Clone, Copy)]
pub struct State {
    pub word: Word,
    // how many numbers have been taken
    pub taken: usize,
    // a word that is no number stands after them, or one for which there is no room
    // A flag beside the count, which counts whether it is set or not.
    pub more: bool,
}

// Nothing is read yet.
// No `Default`: it promises `Starts`.
pub fn fresh() -> State
    ensures { Starts result }
{
    State {
        word: Word::Between,
        taken: 0,
        more: false,
    }
}

// Reads a further piece of the text.
pub fn feed(s: State, piece: &[u8], numbers: &mut [u32]) -> State
    ensures feeds { Feeds numbers.old piece.now s numbers.new result }
    ensures numbers_len_unchanged { length numbers.new ≡ length numbers.old }
{
    let mut held = s;
    for c in piece {
        held = next(held, *c, numbers);
    }
    held
}

// The state after one more byte. Once a word was not taken, nothing changes any more.
fn next(s: State, c: u8, numbers: &mut [u32]) -> State
    ensures feeds { Feeds numbers.old (c ∷ []) s numbers.new result }
    ensures numbers_len_unchanged { length numbers.new ≡ length numbers.old }
{
    if s.more {
        return s;
    }
    if is_separator(c) {
        return closed(s, numbers);
    }
    State {
        word: grown(s.word, c),
        ..s
    }
}

// Every test is made, whatever those before it told. Without that, the digit's test first in `grown` and the limit's first in `further`, a long run
// of digits took a third more instructions.
fn is_separator(c: u8) -> bool
    ensures { result ≡ separator c }
{
    (c == b' ') | (c == b'\t') | (c == b'\r') | (c == b'\n')
}

pub fn is_digit(c: u8) -> bool
    ensures { result ≡ digit c }
{
    c.is_ascii_digit()
}

// The word with a further byte, which is no separator.
fn grown(w: Word, c: u8) -> Word
    ensures { Grows w c result }
{
    if !is_digit(c) {
        return Word::Other;
    }
    match w {
        Word::Between => Word::Digits(value(c)),
        Word::Digits(v) => Word::Digits(further(v, value(c))),
        Word::Other => Word::Other,
    }
}

// What a digit stands for.
pub fn value(c: u8) -> u64
    requires { digit c ≡ true }
    ensures { (result ≡ c - 48) × (result < 10) }
{
    u64::from(c - b'0')
}

// The value with a further digit, cut off just past the limit so that any run of digits fits.
fn further(v: u64, d: u64) -> u64
    requires { d < 10 }
    ensures { result ≡ min (10 * v + d) (suc most_number) }
{
    if OVER <= v {
        return OVER;
    }
    (10 * v + d).min(OVER)
}

// A separator ends the open word: a number is taken, any other word is refused.
fn closed(s: State, numbers: &mut [u32]) -> State
    ensures closes { Closes numbers.old s numbers.new result }
    ensures numbers_len_unchanged { length numbers.new ≡ length numbers.old }
{
    match s.word {
        Word::Between => s,
        Word::Digits(v) => number(s, v, numbers),
        Word::Other => refused(s),
    }
}

// A word of digits ends: it is taken if it is not over the limit and there is room.
fn number(s: State, v: u64, numbers: &mut [u32]) -> State
    requires { s.word ≡ Word.Digits v }
    ensures closes { Closes numbers.old s numbers.new result }
    ensures numbers_len_unchanged { length numbers.new ≡ length numbers.old }
{
    let Ok(x) = u32::try_from(v) else {
        return refused(s);
    };
    let at = s.taken;
    if numbers.len() <= at {
        return refused(s);
    }
    numbers[at] = x;
    State {
        word: Word::Between,
        taken: at + 1,
        ..s
    }
}

// A word was not taken: nothing that follows is.
fn refused(s: State) -> State
    ensures { result ≡ refusal s }
{
    State {
        word: Word::Between,
        more: true,
        ..s
    }
}
