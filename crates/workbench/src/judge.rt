// What the numbers of a text ask.
ghost use Rattle.std.specs.Prelude.{◌≡◌, not, ◌&&◌, ◌+◌, ◌*◌, ◌≤◌, ◌<◌, eqb, length};
ghost use Rattle.workbench.specs.Parts.{Heads, VerdictOf};
ghost use Rattle.workbench.specs.declared.judge.Unplanned.TheVariants.{OutOfRange};

use checks::range::ranges;
use reading::State;
use tables::cells::count;
use tables::law::no_law;
use tables::limits::MOST_SCANS;
use tables::refusal::Refusal;

// The cells of the largest table that is planned.
const MOST_CELLS: u64 = 4096;

// Why nothing is planned: a text is no request, a number of the first four is out of range, or the table is too large.
#[derive(Clone, Copy)]
pub enum Unplanned {
    BadInput,
    OutOfRange(Refusal),
    TooLarge,
}

impl From<Refusal> for Unplanned {
    ghost from_gives = { λ r e. e ≡ OutOfRange r };

    fn from(r: Refusal) -> Unplanned {
        Unplanned::OutOfRange(r)
    }
}

// What was taken of a text: how far it was read, and its numbers, in the room that those of the largest text take.
#[derive(Clone, Copy)]
pub struct Taken<'a> {
    pub state: State,
    pub numbers: &'a [u32],
    ghost roomy: { 8196 ≤ length numbers.now },
}

impl Taken<'_> {
    // What the first four numbers settle, by the checks of N, Q and law in their order, and then the size: the cells of one table, or why none
    // is planned.
    pub fn first_four(&self) -> Result<usize, Unplanned>
        ensures { Heads self.now.numbers.now result }
    {
        let scans = u64::from(self.numbers[0]);
        let settings = u64::from(self.numbers[1]);
        ranges(
            MOST_SCANS,
            scans,
            settings,
            no_law(u64::from(self.numbers[2])),
        )?;
        let cells = count(scans, settings);
        if MOST_CELLS < cells {
            return Err(Unplanned::TooLarge);
        }
        Ok(cells as usize)
    }

    // What is asked, of a text that a separator has ended: the first four numbers, if there are so many, and then whether the rest are the cells.
    pub fn judge(&self) -> Result<usize, Unplanned>
        ensures { VerdictOf self.now.numbers.now self.now.state result }
    {
        if self.state.taken < 4 {
            return Err(Unplanned::BadInput);
        }
        let cells = self.first_four()?;
        if !self.all_read(cells) {
            return Err(Unplanned::BadInput);
        }
        Ok(cells)
    }

    // The cells are all there and nothing else: no word was left over, and the numbers are the first four and two tables.
    fn all_read(&self, cells: usize) -> bool
        requires { cells ≤ 4096 }
        ensures { result ≡ (not self.now.state.more && eqb self.now.state.taken (4 + 2 * cells)) }
    {
        !self.state.more && self.state.taken == 4 + 2 * cells
    }
}
