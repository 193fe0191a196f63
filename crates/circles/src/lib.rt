// Circles of points, each lowered by the next: a tie leaves no room for slack, and any other circle leaves none at all.
// It rests on notes' bounds.
// It promises which circles are ties; what it leaves in the memory is free, as all that the search does.
#![tactic(auto)]

ghost use Rattle.std.specs.Prelude.{◌≡◌, ◌^◌, ◌≤◌, ◌<◌, IfSome};
ghost use Rattle.notes.specs.Limits.{places};
ghost use Rattle.notes.specs.Search.{Worked};
ghost use Rattle.circles.specs.Circle.{is_tie};

use notes::{BY, MARKS, MEMORY, PLACES, POINT, SLACKS, WEIGHT};

// What a bound adds up to that isn't strict and whose c is 0.
const STEP: usize = notes::EVEN / SLACKS + 1;

// A bound's slack, all of it taken away.
const NO_SLACK: usize = WEIGHT * notes::LOOSE;

// Looks for circles of points, each lowered by the next. The bounds of one that is a tie lose their slacks; false where one isn't, and so
// leaves no room at all.
pub fn loosen(m: &mut [usize; MEMORY], n: usize, base: usize) -> bool
    requires { (n ≤ places) × (base < 2 ^ 32) }
    ensures { Worked m.old m.new }
{
    for i in 0..n {
        if let Some(x) = walk(m, i, base) {
            if !around(m, x) {
                return false;
            }
            free(m, x);
        }
    }
    true
}

// From point i on until no bound lowered the point, or it is marked: with this walk's mark there is a circle, and x is a point of it.
// Marks of earlier looks are under the base.
fn walk(m: &mut [usize; MEMORY], i: usize, base: usize) -> Option<usize>
    requires { (i < places) × (base < 2 ^ 32) }
    ensures answer { IfSome result (λ x. x < places) }
    ensures worked { Worked m.old m.new }
{
    let mut x = i;
    for _ in 0..PLACES {
        let seen = m[MARKS + x];
        if base <= seen {
            return if seen == base + i { Some(x) } else { None };
        }
        m[MARKS + x] = base + i;
        let by = m[BY + x];
        // the memory is numbers, and no bound stands at 0
        if by == 0 {
            return None;
        }
        x = m[by % MEMORY] / POINT % PLACES;
    }
    None
}

// Whether the circle through x is a tie: its bounds' c add up to nothing, and none is strict.
fn around(m: &[usize; MEMORY], x: usize) -> bool
    requires { x < places }
    ensures { result ≡ is_tie m.now x places x 0 0 }
{
    let mut sum = 0;
    let mut due = 0;
    let mut y = x;
    for _ in 0..PLACES {
        let bound = m[m[BY + y] % MEMORY];
        let weight = bound / WEIGHT % notes::TOP;
        sum += weight / SLACKS + weight % 2;
        due += STEP;
        y = bound / POINT % PLACES;
        if y == x {
            return sum == due;
        }
    }
    false
}

// Takes their slacks from the bounds of the circle through x, and forgets that they lowered its points.
fn free(m: &mut [usize; MEMORY], x: usize)
    requires { x < places }
    ensures { Worked m.old m.new }
{
    let mut y = x;
    for _ in 0..PLACES {
        let at = m[BY + y] % MEMORY;
        let bound = m[at];
        m[at] = bound | NO_SLACK;
        m[BY + y] = 0;
        y = bound / POINT % PLACES;
        if y == x {
            return;
        }
    }
}
