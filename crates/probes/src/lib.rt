// The small tests that a step's rules come down to: a tie's c within its most, two points of one group, at a gap, a walk that comes to a
// point at a gap, and a total that is below zero.
// It rests on the walks over legs and the groups of links, and tells each exactly (specs/Probes.antt); upheld puts them together.
#![tactic(auto)]

ghost use Rattle.std.specs.Prelude.{◌≡◌, ◌≤◌, length};
ghost use Rattle.big.specs.Big.{signed_of};
ghost use Rattle.meaning.specs.Decides.{Decides};
ghost use Rattle.reasons.specs.Rules.{TieWithin};
ghost use Rattle.links.specs.Links.{Rising};
ghost use Rattle.probes.specs.Probes.{TiedSays, TiedAtSays, GoesTo, UnderAt};

use legs::{RANGE, Stand};

// The most that a tie's c may be, either way.
const MOST: u64 = 2147483648;

// c is two's complement.
pub fn within(c: u64) -> bool
    ensures { Decides (TieWithin (signed_of 8 c)) result }
{
    (c <= MOST) | (u64::MAX - MOST < c)
}

// Whether two points are of one group.
pub fn tied(links: &[u64], i: u8, j: u8) -> bool
    requires { (length links.now ≡ 256) × Rising links.now }
    ensures { TiedSays links.now i j result }
{
    links::between(links, i, j).is_some()
}

pub fn tied_at(links: &[u64], i: u8, j: u8, gap: u64) -> bool
    requires { (length links.now ≡ 256) × Rising links.now }
    ensures { TiedAtSays links.now i j gap result }
{
    links::between(links, i, j) == Some(gap)
}

// A walk of at most T + 1 bounds from i to j, none of them strict, that comes to the gap.
pub fn goes_to(legs: &[u64], zero: u8, bounds: &[u16], count: u8, i: u8, j: u8, gap: u64) -> bool
    requires { (length legs.now ≡ 768) × (129 ≤ length bounds.now) × (zero ≤ 128) }
    ensures { Decides (GoesTo legs.now bounds.now zero count i j gap) result }
{
    if zero as u16 + 1 < count as u16 {
        return false;
    }
    let Some(end) = legs::walk(legs, bounds, count, i) else {
        return false;
    };
    (end.at == j) & (end.gap == gap) & !end.strict
}

// A total below zero, or zero with a strict bound.
pub fn under(end: Stand) -> bool
    ensures { Decides (UnderAt end) result }
{
    (RANGE / 2 <= end.gap) | ((end.gap == 0) & end.strict)
}
