// The first walk over a text: every line is judged before a cell is written.
ghost use Rattle.std.specs.Prelude.{◌≡◌, [], ◌≤◌, length};
ghost use Rattle.tables.specs.Tables.{cells};
ghost use Rattle.tables.specs.Refusals.{ended};
ghost use Rattle.lines.specs.Text.{lines};
ghost use Rattle.lines.specs.Parts.{said};
ghost use Rattle.imports.specs.Import.{first_fault};
ghost use Rattle.imports.specs.Parts.{Marks, KeptBehind, LineJudged};

use crate::left::lines_of;
use crate::size::Size;
use checks::stage::unless;
use lines::says::Entry;
use tables::refusal::Refusal;

// One line, the k-th: its fault, if it has one; otherwise its cell is marked.
fn judge_line(size: Size, k: u64, line: Option<Entry>, scratch: &mut [u8]) -> Result<(), Refusal>
    requires { cells size.scans size.settings ≤ length scratch.old }
    ensures { LineJudged size.scans size.settings k (cells size.scans size.settings) (said line) scratch.old scratch.new (ended result) }
{
    let e = line.ok_or(Refusal::Malformed(k))?;
    unless(size.out_of_range(e), Refusal::OutOfRange(k))?;
    let at = size.cell_of(e);
    unless(scratch[at] != 0, Refusal::Twice(k))?;
    scratch[at] = 1;
    Ok(())
}

// All lines, one after the other.
pub fn judge(size: Size, text: &[u8], scratch: &mut [u8]) -> Result<(), Refusal>
    requires room { cells size.scans size.settings ≤ length scratch.old }
    requires marks { Marks (cells size.scans size.settings) scratch.old [] }
    ensures { (ended result ≡ first_fault size.scans size.settings 1 [] (lines text.now)) × KeptBehind (cells size.scans size.settings) scratch.old scratch.new }
{
    let mut k = 1;
    for line in lines_of(text) {
        judge_line(size, k, line, scratch)?;
        k += 1;
    }
    Ok(())
}
