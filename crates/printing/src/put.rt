// Text and numbers, put into a lent buffer one behind the other.
ghost use Rattle.std.specs.Prelude.{suc, ◌+◌, ◌≤◌, length};
ghost use Rattle.printing.specs.Lines.{decimal, spaced, named};
ghost use Rattle.printing.specs.Puts.{Puts};

// A text in a lent buffer: the place behind what was put so far, from which on more is put.
#[derive(Drop)]
pub struct Text<'a> {
    pub out: &'a mut [u8],
    pub at: usize,
}

impl Text<'_> {
    pub fn put(&mut self, bytes: &[u8])
        requires { self.old.at + length bytes.now ≤ length self.old.out.now }
        ensures { Puts self.old bytes.now self.new }
    {
        let end = self.at + bytes.len();
        self.out[self.at..end].copy_from_slice(bytes);
        self.at = end;
    }

    // It asks for no more room than the digits take: 20 bytes hold every number, and 3 one that was a byte. By hand, since a `write!` can fail,
    // and nothing says that it does not where there is room.
    pub fn put_number(&mut self, x: u64)
        requires { self.old.at + length (decimal x) ≤ length self.old.out.now }
        ensures { Puts self.old (decimal x) self.new }
    {
        if 10 <= x {
            self.put_number(x / 10);
        }
        self.put(&[48 + (x % 10) as u8]);
    }

    pub fn put_spaced(&mut self, x: u64)
        requires { self.old.at + suc (length (decimal x)) ≤ length self.old.out.now }
        ensures { Puts self.old (spaced (decimal x)) self.new }
    {
        self.put(b" ");
        self.put_number(x);
    }

    // A space, the word, a space and the number: 22 bytes beside the word hold them.
    #[tactic(auto, using(crate::proofs::DecimalLaws::length_decimal))]
    pub fn put_named(&mut self, word: &[u8], x: u64)
        requires { self.old.at + (length word.now + 22) ≤ length self.old.out.now }
        ensures put { Puts self.old (named word.now x) self.new }
        ensures upper_bound { self.new.at ≤ self.old.at + (length word.now + 22) }
    {
        self.put(b" ");
        self.put(word);
        self.put_spaced(x);
    }
}
