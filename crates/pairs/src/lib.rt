// Two terms of one input: tied where they aren't yet. What passing equalities on means stands here too (specs/Passing.antt).
// It rests on the steps and on joined inputs, and promises of a pair what a pass promises of all.
#![tactic(auto)]

ghost use Rattle.std.specs.Prelude.{◌≡◌, ◌≤◌, ◌<◌, length};
ghost use Rattle.closure.specs.Table.{Table};
ghost use Rattle.cells.specs.Cells.{stride, cells, cell};
ghost use Rattle.sheet.specs.Sheet.{count_terms};
ghost use Rattle.settled.specs.Settled.{points};
ghost use Rattle.pairs.specs.Passing.{PairTied, Passing, Tying};

use reading::Sheet;
use sheet::{Biased, TermNumber};

// No levels meet the table with such terms tied.
#[derive(Clone, Copy, PartialEq, Eq, Debug)]
pub struct Clash;

// Ties terms i and j where they have the same input and aren't tied yet, and answers whether it did.
pub fn pass_pair(sheet: &Sheet, d: &mut [u32], i: TermNumber, j: TermNumber) -> Result<bool, Clash>
    requires i_bound { (i.0 < count_terms sheet.now) × (j.0 < i.0) }
    requires d_len { (length d.old ≡ cells) × Table (points sheet.now) (cell d.old) }
    ensures { Passing sheet.now (PairTied sheet.now i.0 j.0) d.old d.new result }
{
    let n = sheet.count_terms() + 1;
    if !joined::same_at(sheet, d, i, j) {
        return Ok(false);
    }
    tie_new(d, n, i.0 as usize, j.0 as usize)
}

// Ties points a and b where they aren't tied yet.
fn tie_new(d: &mut [u32], n: usize, a: usize, b: usize) -> Result<bool, Clash>
    requires d_len { (length d.old ≡ cells) × (n ≤ stride) × (a < n) × (b < n) }
    requires table { Table n (cell d.old) }
    ensures { Tying n a b d.old d.new result }
{
    if ties::tied_at(d, n, a, b, Biased::ZERO) {
        return Ok(false);
    }
    if steps::put_tie(d, n, a, b, Biased::ZERO) {
        Ok(true)
    } else {
        Err(Clash)
    }
}
