// The cells of a table in a lent slice: a gap read, a row taken out by value, filled, started, relaxed.
// It rests on the gap kind and on the limit of terms, and promises of each call which cells it changes and that it leaves all others as
// they are.
#![tactic(auto)]

ghost use Rattle.std.specs.Prelude.{◌≡◌, ℕ, ◌+◌, ◌≤◌, ◌<◌, length, get_or, MatchOption};
ghost use Rattle.kind.specs.Code.{none, sum_of, Addable};
ghost use Rattle.cells.specs.Cells.{stride, cells, cell, NoneThere, RowStarted, RowRelaxed};

use gap::Gap;

// The most points: a sheet's terms and the zero level.
pub const STRIDE: usize = sheet::MAX_TERMS + 1;

pub const CELLS: usize = STRIDE * STRIDE;

// The gap from i to j.
pub fn gap_at(d: &[u32], i: usize, j: usize) -> Gap
    requires { (length d.now ≡ cells) × (i < stride) × (j < stride) }
    ensures { result.0 ≡ cell d.now i j }
{
    Gap(d[i * STRIDE + j])
}

// The row of a point that no bound names: no gap to any of n points but itself.
pub fn start_row(d: &mut [u32], i: usize, n: usize)
    requires { (length d.old ≡ cells) × (i < n) × (n ≤ stride) }
    ensures { RowStarted d.old d.new i n }
{
    let at = i * STRIDE;
    d[at..at + n].fill(gap::NONE);
    d[at + i] = gap::ZERO;
}

// Row b, by value: the rows are relaxed by it while the table changes.
pub fn row_of(d: &[u32], b: usize) -> [u32; STRIDE]
    requires { (length d.now ≡ cells) × (b < stride) }
    ensures { (j : ℕ) → j < stride → get_or result j 0 ≡ cell d.now b j }
{
    let mut row = [0u32; STRIDE];
    let at = b * STRIDE;
    row.copy_from_slice(&d[at..at + STRIDE]);
    row
}

// The first of n columns to which the row has a gap, or n.
pub fn first_there(row: &[u32; STRIDE], n: usize) -> usize
    requires { n ≤ stride }
    ensures { (result ≤ n) × ((j : ℕ) → j < result → none ≤ get_or row.now j 0) }
{
    row[..n].iter().position(|g| *g < gap::NONE).unwrap_or(n)
}

// One past the last, or from where there is none from there on.
pub fn past_there(row: &[u32; STRIDE], from: usize, n: usize) -> usize
    requires { (from ≤ n) × (n ≤ stride) }
    ensures { (from ≤ result) × (result ≤ n) × ((j : ℕ) → result ≤ j → j < n → none ≤ get_or row.now j 0) }
{
    match last_there(&row[from..n]) {
        Some(last) => from + last + 1,
        None => from,
    }
}

// The last of some cells in which there is a gap.
fn last_there(cells: &[u32]) -> Option<usize>
    ensures { MatchOption result (NoneThere 0 cells.now) (λ last. (last < length cells.now) × NoneThere (last + 1) cells.now) }
{
    cells.iter().rposition(|g| *g < gap::NONE)
}

// The cells of row i between two columns become the tighter of what they are and the sum of via and the row's cell.
// Where the cell at b isn't improved, no cell of the row is.
pub fn relax_row(
    d: &mut [u32],
    i: usize,
    b: usize,
    via: Gap,
    row: &[u32; STRIDE],
    from: usize,
    to: usize,
)
    requires d_len { (length d.old ≡ cells) × (i < stride) × (b < stride) × (from ≤ to) × (to ≤ stride) }
    requires by_index { (j : ℕ) → from ≤ j → j < to → Addable via.0 (get_or row.now j 0) }
    requires j_bound { cell d.old i b ≤ via.0 → (j : ℕ) → from ≤ j → j < to → cell d.old i j ≤ sum_of via.0 (get_or row.now j 0) }
    ensures { RowRelaxed d.old d.new row.now i via.0 from to }
{
    let at = i * STRIDE;
    if via < Gap(d[at + b]) {
        for j in from..to {
            let k = at + j;
            d[k] = Gap(d[k]).tighter(via.sum(Gap(row[j]))).0;
        }
    }
}
