// The entries behind a step, gathered through every earlier tie that it rests on: a recursive walk over the lent steps that marks entries in
// an array. The step number falls; a set has the ties already walked, so that each is walked once.
// It rests on what a step is built on (basis), and promises the rules' own "behind".
#![tactic(auto)]

ghost use Rattle.std.specs.Prelude.{◌≡◌, ◌≤◌, length};
ghost use Rattle.sheet.specs.Decode.{sheet_of};
ghost use Rattle.stated.specs.Said.{steps_of};
ghost use Rattle.basis.specs.Basis.{Lent};
ghost use Rattle.gathered.specs.Gathers.{Standing, Through, Gathers, NextSays};

use sets::Ties;
use stated::Step;

// Marks the entries behind step `at`, and the ties that are walked for them.
pub fn gather(
    sheet: &[u8],
    steps: &[Step],
    links: &[u64],
    paths: &[u64],
    at: usize,
    entries: &mut [bool],
    walked: &mut [u64],
)
    requires { Lent sheet.now links.now paths.now × Standing sheet.now steps.now links.now paths.now at × (length entries.old ≡ 256) × (length walked.old ≡ 2) }
    ensures { Through (sheet_of sheet.now) (steps_of steps.now) at entries.old walked.old → Gathers (sheet_of sheet.now) (steps_of steps.now) at entries.old walked.old entries.new walked.new }
{
    let s = stated::step_at(steps, at);
    basis::mark(s, entries);
    let ties = basis::rests(sheet, links, paths, s);
    let mut from = 0;
    while let Some(t) = next(ties, from, walked) {
        gather(sheet, steps, links, paths, t as usize, entries, walked);
        from = t + 1;
    }
}

// The next tie of a set, from `from` on, that isn't walked yet, and is now, if there is one.
fn next(ties: Ties, from: u8, walked: &mut [u64]) -> Option<u8>
    requires { (from ≤ 128) × (length walked.old ≡ 2) }
    ensures { NextSays ties from walked.old walked.new result }
{
    let before = sets::at(walked, 0);
    let t = sets::first(sets::without(ties, before), from)?;
    sets::put(walked, 0, sets::either(before, sets::only(t)));
    Some(t)
}
