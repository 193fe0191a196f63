// One number for all terms that a closed table gives the same input: the key of kind, symbol and the lowest points that the arguments
// are tied to at 0.
// It rests on the look-up of a tie (ties), and promises that such a point is the lowest, and what the key is made of.
#![tactic(auto)]

ghost use Rattle.std.specs.Prelude.{◌≡◌, ◌*◌, ◌≤◌, ◌<◌, length};
ghost use Rattle.closure.specs.Closed.{Closed};
ghost use Rattle.closure.specs.Table.{reach};
ghost use Rattle.cells.specs.Cells.{stride, cells, cell};
ghost use Rattle.sheet.specs.Says.{term_says};
ghost use Rattle.sheet.specs.Sheet.{ArgumentsBelow, count_terms, term_at};
ghost use Rattle.settled.specs.Settled.{points};
ghost use Rattle.roots.specs.Keyed.{Root, Keyed};

use reading::Sheet;
use sheet::{Biased, Term, TermNumber};

// The key of term i's input, or 0 where it has none.
pub fn key_at(sheet: &Sheet, d: &[u32], i: TermNumber) -> u64
    requires i_bound { i.0 < count_terms sheet.now }
    requires d_len { (length d.now ≡ cells) × Closed (points sheet.now) (reach (points sheet.now)) (cell d.now) }
    ensures { Keyed (cell d.now) (term_at sheet.now i.0) result × (result < 513 * 65536) }
{
    let n = sheet.count_terms() + 1;
    key_of(d, n, sheet.term_at(i))
}

fn key_of(d: &[u32], n: usize, t: Term) -> u64
    requires { (length d.now ≡ cells) × (n ≤ stride) × Closed n (reach n) (cell d.now) × ArgumentsBelow n (term_says t) }
    ensures { Keyed (cell d.now) (term_says t) result × (result < 513 * 65536) }
{
    match t {
        Term::Apply(f, a) => (1 + 2 * (f.0 as u64)) * 65536 + root_of(d, n, a.0 as usize) as u64,
        Term::Apply2(f, a, b) => {
            (2 + 2 * (f.0 as u64)) * 65536
                + 256 * (root_of(d, n, a.0 as usize) as u64)
                + root_of(d, n, b.0 as usize) as u64
        }
        _ => 0,
    }
}

// The lowest point that a is tied to at 0. Its row is read from the front.
fn root_of(d: &[u32], n: usize, a: usize) -> usize
    requires { (length d.now ≡ cells) × (n ≤ stride) × Closed n (reach n) (cell d.now) × (a < n) }
    ensures { Root (cell d.now) a result }
{
    for r in 0..a {
        if ties::tied_at(d, n, a, r, Biased::ZERO) {
            return r;
        }
    }
    a
}
