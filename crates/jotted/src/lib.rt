// Bounds jotted down in a list.
// It rests on the gaps of a sheet's c (steps), and promises a bound, or both of a = b + c, at a place, and every other place as it was.
#![tactic(auto)]

ghost use Rattle.std.specs.Prelude.{◌+◌, ◌<◌, length};
ghost use Rattle.kind.specs.Code.{none, Within};
ghost use Rattle.kind.specs.Kind.{kind_of};
ghost use Rattle.closure.specs.Table.{step};
ghost use Rattle.sheet.specs.Says.{biased_says};
ghost use Rattle.jotted.specs.Jotted.{One, Both};

use gap::Gap;
use layers::Bound;
use sheet::Biased;

// The most bounds that are ever listed: two for each term, for each entry, and for each tie of functions.
pub const MOST: usize = 4 * sheet::MAX_TERMS + 2 * sheet::MAX_ENTRIES;

// A bound from a to b with a gap of a sheet's size.
pub fn one(list: &mut [Bound], m: usize, a: u8, b: u8, g: Gap)
    requires { (m < length list.old) × (g.0 < none) × Within step g.0 }
    ensures { One list.old list.new m a b (kind_of g.0) }
{
    list[m] = Bound {
        from: a,
        to: b,
        gap: g,
    };
}

// Both bounds of a = b + c: there at m, and back at m + 1.
pub fn both(list: &mut [Bound], m: usize, a: u8, b: u8, c: Biased)
    requires { m + 1 < length list.old }
    ensures { Both list.old list.new m a b (biased_says c) }
{
    one(list, m, a, b, steps::to(c));
    one(list, m + 1, b, a, steps::back(c));
}
