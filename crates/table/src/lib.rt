// A closed table of gaps between points: start one, put a bound in, tell whether two points are tied.
// It rests on the table's cells (cells), closed tables (closure) and the gap kind, and promises that a table stays closed and no cell
// leaves its range.
#![tactic(auto)]

ghost use Rattle.std.specs.Prelude.{◌≡◌, ◌≤◌, ◌<◌, length};
ghost use Rattle.kind.specs.Code.{none, Within};
ghost use Rattle.closure.specs.Closed.{tie, tie_of};
ghost use Rattle.closure.specs.Table.{Table, step};
ghost use Rattle.cells.specs.Cells.{stride, cells, cell};
ghost use Rattle.table.specs.Inserted.{Rows, Inserted, Started};

use gap::Gap;

// The sizes of the cells, for who lends a table or a value for each point.
pub const STRIDE: usize = cells::STRIDE;

pub const CELLS: usize = cells::CELLS;

// What the codes of a gap and of the same one back add up to.
const THERE_AND_BACK: u64 = 2 * gap::ZERO as u64;

// The table of no bounds between n points.
pub fn start(d: &mut [u32], n: usize)
    requires { (length d.old ≡ cells) × (n ≤ stride) }
    ensures { Started n d.old d.new }
{
    for i in 0..n {
        cells::start_row(d, i, n);
    }
}

// Puts in the bound g from a to b. False where it closes a walk under zero, and then nothing is changed.
pub fn insert(d: &mut [u32], n: usize, a: usize, b: usize, g: Gap) -> bool
    requires d_len { (length d.old ≡ cells) × (n ≤ stride) × (a < n) × (b < n) }
    requires g_lt_none { (g.0 < none) × Within step g.0 }
    requires table { Table n (cell d.old) }
    ensures { Inserted n d.old d.new a b g.0 result }
{
    if cells::gap_at(d, a, b) <= g {
        return true;
    }
    if g.sum(cells::gap_at(d, b, a)) < Gap::ZERO {
        return false;
    }
    relax_rows(d, n, a, b, g);
    true
}

// Every row, by the bound g from a to b. Row b is taken out first, since it's relaxed too, and only the columns where it has gaps count.
fn relax_rows(d: &mut [u32], n: usize, a: usize, b: usize, g: Gap)
    requires d_len { (length d.old ≡ cells) × (n ≤ stride) × (a < n) × (b < n) }
    requires g_lt_none { (g.0 < none) × Within step g.0 }
    requires table { Table n (cell d.old) }
    ensures { Rows n d.old d.new a b g.0 n }
{
    let row = cells::row_of(d, b);
    let from = cells::first_there(&row, n);
    let to = cells::past_there(&row, from, n);
    for i in 0..n {
        let via = cells::gap_at(d, i, a).sum(g);
        cells::relax_row(d, i, b, via, &row, from, to);
    }
}

// The gap at which a is tied to b, or NONE.
pub fn tied(d: &[u32], a: usize, b: usize) -> Gap
    requires { (length d.now ≡ cells) × (a < stride) × (b < stride) }
    ensures { result.0 ≡ tie_of (cell d.now) a b }
{
    let to = cells::gap_at(d, a, b).0;
    let back = cells::gap_at(d, b, a).0;
    if (to % 2 == 0) & (u64::from(to) + u64::from(back) == THERE_AND_BACK) {
        Gap(to)
    } else {
        Gap::NONE
    }
}
