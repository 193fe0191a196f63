// Levels lowered by bounds: each once, to and fro, and late in the search on along the bounds that lead on from what fell.
// It rests on notes' bounds.
// It promises to stay within the memory lent to it; the levels that it leaves are free, as all that the search does.
#![tactic(auto)]

ghost use Rattle.std.specs.Prelude.{◌≤◌, ◌<◌};
ghost use Rattle.notes.specs.Limits.{memory};
ghost use Rattle.notes.specs.Search.{Worked};

use notes::{BOUNDS, BY, EVEN, MEMORY, ON, PLACES, POINT, TOP, WEIGHT};

// Most levels settle in a few sweeps to and fro. From this one on, what falls is followed along the bounds that lead on from it.
const LATE: usize = 5;

// Lowers by each bound once, up and down by turns, and tells whether a level fell.
pub fn sweep(m: &mut [usize; MEMORY], end: usize, turn: usize) -> bool
    requires { end ≤ memory }
    ensures { Worked m.old m.new }
{
    let up = turn % 2 == 1;
    let reach = if turn < LATE { 1 } else { PLACES };
    let mut fell = false;
    for k in BOUNDS..end {
        let at = if up { k } else { end - 1 - (k - BOUNDS) };
        fell |= follow(m, at, reach);
    }
    fell
}

// Lowers by the bound in this place, then by one that leads on from the point that fell, up to so many in a row or until it comes round.
// Tells whether a level fell.
fn follow(m: &mut [usize; MEMORY], at: usize, reach: usize) -> bool
    requires { at < memory }
    ensures { Worked m.old m.new }
{
    let first = m[at] / POINT % PLACES;
    let mut k = at;
    for steps in 0..reach {
        if !lower(m, k) {
            return 0 < steps;
        }
        let x = m[k] % PLACES;
        k = m[ON + x] % MEMORY;
        if (k < BOUNDS) | (x == first) {
            return true;
        }
    }
    true
}

// Lowers the bound's point a where it is too high over its point b, and tells whether it did. A level that would run off stays.
pub fn lower(m: &mut [usize; MEMORY], at: usize) -> bool
    requires { at < memory }
    ensures { Worked m.old m.new }
{
    let bound = m[at];
    let a = bound % PLACES;
    let most = m[bound / POINT % PLACES] % TOP + bound / WEIGHT % TOP;
    if m[a] % TOP + EVEN <= most {
        return false;
    }
    if most < EVEN {
        return false;
    }
    m[a] = most - EVEN;
    m[BY + a] = at;
    true
}
