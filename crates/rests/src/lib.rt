// A table of gaps that rests on a list of bounds: those of the list put in, in order, as far as they go.
// It rests on the table and on walks over listed bounds (layers), and promises that each cell stays the total of a walk over the bounds that
// are in, and that the one that isn't closes a walk under zero.
#![tactic(auto)]

ghost use Rattle.std.specs.Prelude.{◌≡◌, ◌≤◌, length};
ghost use Rattle.walked.specs.Borne.{Exact};
ghost use Rattle.cells.specs.Cells.{stride, cells, cell};
ghost use Rattle.layers.specs.Bounds.{bounds, Sound, Listed};
ghost use Rattle.rests.specs.Rested.{Rested};

use layers::Bound;

// Puts bounds `from` to m - 1 in, in that order, and answers how many of the first m are in: fewer than m where the next closes a walk
// under zero.
pub fn put(d: &mut [u32], n: usize, list: &[Bound], from: usize, m: usize) -> usize
    requires d_len { (length d.old ≡ cells) × (n ≤ stride) × (from ≤ m) }
    requires sound { Sound n (bounds m list.now) }
    requires exact { Exact n (Listed (bounds from list.now)) (cell d.old) }
    ensures { Rested n m list.now from d.old d.new result }
{
    for k in from..m {
        let a = usize::from(list[k].from);
        let b = usize::from(list[k].to);
        if !table::insert(d, n, a, b, list[k].gap) {
            return k;
        }
    }
    m
}
