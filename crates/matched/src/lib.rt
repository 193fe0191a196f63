// Two applications that a table gives the same input and doesn't tie, looked for.
// It rests on the tests of two terms (joined, ties), and promises a pair where there is one, and else that the table passes equalities on.
#![tactic(auto)]

ghost use Rattle.std.specs.Prelude.{◌≡◌, ◌<◌, length};
ghost use Rattle.closure.specs.Closed.{Closed};
ghost use Rattle.closure.specs.Table.{reach};
ghost use Rattle.cells.specs.Cells.{cells, cell};
ghost use Rattle.sheet.specs.Sheet.{count_terms};
ghost use Rattle.meaning.specs.Decides.{Decides};
ghost use Rattle.settled.specs.Settled.{points};
ghost use Rattle.matched.specs.Matched.{Untied, Partner, First};

use reading::Sheet;
use sheet::{Biased, TermNumber};

// The lowest term that has the input of a lower one and isn't tied to it, and the lowest such one.
pub fn first(sheet: &Sheet, d: &[u32]) -> Option<(TermNumber, TermNumber)>
    requires d_len { (length d.now ≡ cells) × Closed (points sheet.now) (reach (points sheet.now)) (cell d.now) }
    ensures { First sheet.now (cell d.now) result }
{
    for i in 0..sheet.count_terms() {
        if let Some(j) = partner(sheet, d, i) {
            return Some((TermNumber(i as u8), j));
        }
    }
    None
}

// The lowest term below i that has its input and isn't tied to it.
pub fn partner(sheet: &Sheet, d: &[u32], i: usize) -> Option<TermNumber>
    requires i_bound { i < count_terms sheet.now }
    requires d_len { (length d.now ≡ cells) × Closed (points sheet.now) (reach (points sheet.now)) (cell d.now) }
    ensures { Partner sheet.now (cell d.now) i result }
{
    for j in 0..i {
        let lower = TermNumber(j as u8);
        if untied(sheet, d, TermNumber(i as u8), lower) {
            return Some(lower);
        }
    }
    None
}

// Whether i and j have the same input and aren't tied.
fn untied(sheet: &Sheet, d: &[u32], i: TermNumber, j: TermNumber) -> bool
    requires i_bound { (i.0 < count_terms sheet.now) × (j.0 < count_terms sheet.now) }
    requires d_len { (length d.now ≡ cells) × Closed (points sheet.now) (reach (points sheet.now)) (cell d.now) }
    ensures { Decides (Untied sheet.now (cell d.now) i.0 j.0) result }
{
    let n = sheet.count_terms() + 1;
    if ties::tied_at(d, n, i.0 as usize, j.0 as usize, Biased::ZERO) {
        return false;
    }
    joined::same_at(sheet, d, i, j)
}
