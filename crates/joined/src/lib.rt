// Whether a closed table says that two of a sheet's terms have the same input: one kind, one symbol, and arguments tied at 0.
// It rests on the look-up of a tie (ties) and on the terms' records, which compare number by number, and each test says what both of its
// answers show.
#![tactic(auto)]

ghost use Rattle.std.specs.Prelude.{◌≡◌, ◌≤◌, ◌<◌, length};
ghost use Rattle.closure.specs.Closed.{Closed};
ghost use Rattle.closure.specs.Table.{reach};
ghost use Rattle.cells.specs.Cells.{stride, cells, cell};
ghost use Rattle.sheet.specs.Decode.{Sized, decode_term, sheet_of};
ghost use Rattle.sheet.specs.Sheet.{ArgumentsBelow, count_terms, term_at};
ghost use Rattle.meaning.specs.Decides.{Decides};
ghost use Rattle.settled.specs.Settled.{points};
ghost use Rattle.joined.specs.Joined.{Joined, JoinedAt};

use reading::Sheet;
use sheet::{Biased, Fields, TermNumber};

// Whether terms i and j of a sheet have the same input.
pub fn same_at(sheet: &Sheet, d: &[u32], i: TermNumber, j: TermNumber) -> bool
    requires i_bound { (i.0 < count_terms sheet.now) × (j.0 < count_terms sheet.now) }
    requires d_len { (length d.now ≡ cells) × Closed (points sheet.now) (reach (points sheet.now)) (cell d.now) }
    ensures { Decides (JoinedAt sheet.now (cell d.now) i.0 j.0) result }
{
    let n = sheet.count_terms() + 1;
    same_input(d, n, sheet.record_of(i), sheet.record_of(j))
}

// Whether two records are applications of one kind and symbol whose arguments are tied at 0.
fn same_input(d: &[u32], n: usize, t: Fields, u: Fields) -> bool
    requires d_len { (length d.now ≡ cells) × (n ≤ stride) × Closed n (reach n) (cell d.now) }
    requires arguments_below { ArgumentsBelow n (decode_term t) × ArgumentsBelow n (decode_term u) }
    ensures { Decides (Joined (cell d.now) (decode_term t) (decode_term u)) result }
{
    // By the records' own numbers, and not as terms: four comparisons of bytes, and no test jumps.
    let kind = t.kind;
    if (kind < 3) | (4 < kind) | (kind != u.kind) | (t.symbol != u.symbol) {
        return false;
    }
    if !ties::tied_at(d, n, t.a as usize, u.a as usize, Biased::ZERO) {
        return false;
    }
    (kind == 3) || ties::tied_at(d, n, t.b as usize, u.b as usize, Biased::ZERO)
}
