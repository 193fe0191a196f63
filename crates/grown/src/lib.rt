// A table grown over a list of bounds: two applications of the same input are tied, and the tie is listed, until a bound closes a walk under
// zero or nothing is left to tie.
// It rests on tables over lists of bounds (rests) and on the search for such a pair (matched), and promises what each tie came from.
#![tactic(auto)]

ghost use Rattle.std.specs.Prelude.{◌≡◌, ◌+◌, ◌*◌, ◌≤◌, ◌<◌, length};
ghost use Rattle.cells.specs.Cells.{cells, cell, Kept};
ghost use Rattle.sheet.specs.Limits.{max_terms, max_entries};
ghost use Rattle.settled.specs.Settled.{points};
ghost use Rattle.walked.specs.Borne.{Exact};
ghost use Rattle.layers.specs.Bounds.{bounds, Sound, Listed};
ghost use Rattle.jotted.specs.Jotted.{most};
ghost use Rattle.grown.specs.Grown.{Grew, Front};

use layers::Bound;
use reading::Sheet;
use sheet::Biased;

// How many bounds are listed, and how many of them the table has: fewer where the next one closes a walk under zero.
#[derive(Clone, Copy)]
pub struct Grown {
    pub listed: usize,
    pub put: usize,
}

// Begins a table anew, puts the m listed bounds in, and lists and puts in ties of functions behind them.
pub fn grow(sheet: &Sheet, d: &mut [u32], list: &mut [Bound], m: usize) -> Grown
    requires d_len { length d.old ≡ cells }
    requires list_len { (length list.old ≡ most) × (m ≤ 2 * max_terms + 2 * max_entries) }
    requires sound { Sound (points sheet.now) (bounds m list.old) }
    ensures grew { Grew sheet.now list.new m (cell d.new) result.listed result.put }
    ensures front { Front m list.old list.new }
    ensures kept { Kept (points sheet.now) d.old d.new }
{
    let n = sheet.count_terms() + 1;
    table::start(d, n);
    let put = rests::put(d, n, list, 0, m);
    if put < m {
        return Grown { listed: m, put };
    }
    tie_all(sheet, d, list, m)
}

// With the first m bounds in the table: ties applications of the same input.
fn tie_all(sheet: &Sheet, d: &mut [u32], list: &mut [Bound], m: usize) -> Grown
    requires d_len { length d.old ≡ cells }
    requires list_len { (length list.old ≡ most) × (m ≤ 2 * max_terms + 2 * max_entries) }
    requires sound { Sound (points sheet.now) (bounds m list.old) }
    requires exact { Exact (points sheet.now) (Listed (bounds m list.old)) (cell d.old) }
    ensures grew { Grew sheet.now list.new m (cell d.new) result.listed result.put }
    ensures front { Front m list.old list.new }
    ensures kept { Kept (points sheet.now) d.old d.new }
{
    let n = sheet.count_terms() + 1;
    let mut listed = m;
    while let Some((i, j)) = matched::first(sheet, d) {
        jotted::both(list, listed, j.0, i.0, Biased::ZERO);
        let put = rests::put(d, n, list, listed, listed + 2);
        listed += 2;
        if put < listed {
            return Grown { listed, put };
        }
    }
    Grown {
        listed,
        put: listed,
    }
}
