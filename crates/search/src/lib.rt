// The search for levels: what the sheet asks is noted, and levels are lowered, bound by bound, until none has to fall and applications of
// one input are level.
// It rests on notes, lowering, circles and inputs.
// It promises that it ends and stays within the memory lent to it; the levels that it leaves are free.
#![tactic(auto)]

ghost use Rattle.std.specs.Prelude.{◌≤◌, length};
ghost use Rattle.sheet.specs.Sheet.{count_entries};
ghost use Rattle.notes.specs.Limits.{places, memory};
ghost use Rattle.notes.specs.Search.{Worked};

use notes::{MEMORY, PLACES};
use reading::Sheet;

// The search gives up after so many sweeps.
const TURNS: usize = 400;

// Notes what the sheet asks, and lowers the levels of its points, n in all, by it.
pub fn search(m: &mut [usize; MEMORY], n: usize, sheet: &Sheet, set: &[bool]) -> bool
    requires sheet_in_bounds { (count_entries sheet.now ≤ length set.now) × (n ≤ places) }
    ensures { Worked m.old m.new }
{
    let terms = notes::note_terms(m, sheet);
    let end = notes::note_entries(m, sheet, set, terms);
    settle(m, n, end)
}

// Lowers levels until no bound and no function asks for more. Where a circle of bounds leaves no room for their slacks, they lose them;
// where it leaves none at all, or it takes too long, the search gives up.
fn settle(m: &mut [usize; MEMORY], n: usize, before: usize) -> bool
    requires { (n ≤ places) × (before ≤ memory) }
    ensures { Worked m.old m.new }
{
    let mut end = before;
    for turn in 1..=TURNS {
        // what is marked or put on a shelf in a turn is told from what was before by its base
        let base = PLACES * turn;
        if !lowering::sweep(m, end, turn) {
            let more = inputs::pass(m, end, base);
            if more == end {
                return true;
            }
            end = more;
        } else if turn % 2 == 0 && !circles::loosen(m, n, base) {
            return false;
        }
    }
    false
}
