// A tie put into a table of gaps as two bounds, and what such a step leaves, whatever it puts in (specs/Step.antt).
// It rests on the table, and promises, for any levels: those that meet the tie meet the table with it put in, and a tie that can't be put
// in is met by none.
#![tactic(auto)]

ghost use Rattle.std.specs.Prelude.{◌≡◌, ◌≤◌, ◌<◌, length};
ghost use Rattle.closure.specs.Closed.{TiedAt};
ghost use Rattle.closure.specs.Table.{Table};
ghost use Rattle.cells.specs.Cells.{stride, cells, cell};
ghost use Rattle.sheet.specs.Says.{biased_says};
ghost use Rattle.steps.specs.Step.{Stepped, Weak, Strict};
ghost use Rattle.steps.specs.True.{TieTrue};

use gap::Gap;
use sheet::Biased;

// Both bounds of a = b + c.
pub fn put_tie(d: &mut [u32], n: usize, a: usize, b: usize, c: Biased) -> bool
    requires d_len { (length d.old ≡ cells) × (n ≤ stride) × (a < n) × (b < n) }
    requires table { Table n (cell d.old) }
    ensures { Stepped n (TieTrue a b (biased_says c)) (λ t. TiedAt t a b (biased_says c)) d.old d.new result }
{
    table::insert(d, n, a, b, to(c)) && table::insert(d, n, b, a, back(c))
}

// The gap c, the gap -c, and c strict.
pub fn to(c: Biased) -> Gap
    ensures { Weak result.0 c.0 32768 }
{
    Gap::whole(c.0 as u32, 32768)
}

pub fn back(c: Biased) -> Gap
    ensures { Weak result.0 32768 c.0 }
{
    Gap::whole(32768, c.0 as u32)
}

pub fn under(c: Biased) -> Gap
    ensures { Strict result.0 c.0 32768 }
{
    Gap::strict(c.0 as u32, 32768)
}
