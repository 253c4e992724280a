// A scan's cells, copied: "Each later scan's rates form a square of Q rows of Q." The copy closes and weighs them, in the width that they have,
// so that a step compares what counts and asks nothing more of a cell: a choice that is shut has a forbidden rate there.
ghost use Rattle.std.specs.Prelude.{◌≡◌, [], ℕ, ◌+◌, ◌*◌, ◌≤◌, ◌<◌, get_or, length};
ghost use Rattle.tables.specs.Legal.{LegalBeside};
ghost use Rattle.trellis.specs.Square.{Sixteen, CellsFit, shut_by, closed_rate, counted_of, closed_cell, counted_cell};

use crate::cells::Cells;
use least::choose;
use tables::limits::FORBIDDEN;

// A choice that is forbidden, or whose plain cell is over the ceiling, whatever its scan weighs.
fn shut(ceiling: u32, rate: u32, plain: u32) -> bool
    ensures { result ≡ shut_by ceiling rate plain }
{
    (rate == FORBIDDEN) | (ceiling < plain)
}

// The rate of a choice, which says whether it is shut.
fn closed(ceiling: u32, rate: u32, plain: u32) -> u32
    ensures { result ≡ closed_rate ceiling rate plain }
{
    choose(shut(ceiling, rate, plain), FORBIDDEN, rate)
}

// The distortion that counts: the cell times the weight of its scan. Beside a forbidden rate any value may stand, whose product need not fit,
// so that of a shut choice is taken as 0 before it is weighed. Whether it is shut is told by its closed rate, which the copy has already.
fn counted(weight: u32, ceiling: u32, rate: u32, plain: u32) -> u32
    requires { LegalBeside weight rate plain }
    ensures { result ≡ counted_of weight ceiling rate plain }
{
    weight * choose(closed(ceiling, rate, plain) == FORBIDDEN, 0, plain)
}

// A row of k cells, of both tables: the rates, closed, and what counts beside them.
pub fn row_into(row: &mut [u32; 16], counts: &mut [u32; 16], cells: &Cells, ceiling: u32, k: usize)
    requires fits { (k ≤ 16) × CellsFit cells.now.weight cells.now.from k cells.now.rates.now cells.now.distortions.now }
    ensures long { (length row.new ≡ 16) × (length counts.new ≡ 16) }
    ensures rates { (q : ℕ) → q < k → get_or row.new q 0 ≡ closed_cell ceiling cells.now.rates.now cells.now.distortions.now (cells.now.from + q) }
    ensures counts { (q : ℕ) → q < k → get_or counts.new q 0 ≡ counted_cell cells.now.weight ceiling cells.now.rates.now cells.now.distortions.now (cells.now.from + q) }
{
    for q in 0..k {
        let rate = cells.rates[cells.from + q];
        let plain = cells.distortions[cells.from + q];
        let counts_here = counted(cells.weight, ceiling, rate, plain);
        row[q] = closed(ceiling, rate, plain);
        counts[q] = counts_here;
    }
}

// A square of k rows of k cells, of both tables in the same way.
pub fn square_into(
    square: &mut [[u32; 16]; 16],
    counts: &mut [[u32; 16]; 16],
    cells: &Cells,
    ceiling: u32,
    k: usize,
)
    requires fits { (k ≤ 16) × CellsFit cells.now.weight cells.now.from (k * k) cells.now.rates.now cells.now.distortions.now }
    requires sixteen { Sixteen square.old × Sixteen counts.old }
    ensures still_sixteen { Sixteen square.new × Sixteen counts.new }
    ensures rates { (p : ℕ) → p < k → (q : ℕ) → q < k → get_or (get_or square.new p []) q 0 ≡ closed_cell ceiling cells.now.rates.now cells.now.distortions.now (cells.now.from + p * k + q) }
    ensures counts { (p : ℕ) → p < k → (q : ℕ) → q < k → get_or (get_or counts.new p []) q 0 ≡ counted_cell cells.now.weight ceiling cells.now.rates.now cells.now.distortions.now (cells.now.from + p * k + q) }
{
    for p in 0..k {
        let row = Cells {
            from: cells.from + p * k,
            ..*cells
        };
        row_into(&mut square[p], &mut counts[p], &row, ceiling, k);
    }
}
