// What a step of a reason is built on: the entries that it uses itself, and the ties that it rests on, as a set.
// It rests on routes and what they mean, and promises both exactly (specs/Basis.antt).
#![tactic(auto)]

ghost use Rattle.std.specs.Prelude.{◌≡◌, List, ℕ, ◌≤◌, ◌<◌, length};
ghost use Rattle.order.specs.First.{Set};
ghost use Rattle.sheet.specs.Decode.{sheet_of};
ghost use Rattle.sheet.specs.Sheet.{count_terms, count_entries, term_at, entry_at};
ghost use Rattle.reasons.specs.Step.{Step as RuleStep};
ghost use Rattle.stated.specs.Said.{Formed};
ghost use Rattle.routes.specs.Routes.{PathSays};
ghost use Rattle.basis.specs.Basis.{Lent, Stands, Standing, OwnMarked, RestsOn, OfEntry, OfTie, Among, Added, WalkAdds, InputsSay};

use sets::Ties;
use sheet::{EntryNumber, Term, TermNumber};
use stated::Step;

// The names of bounds by their kinds: entries are below TERM, ties not below TIE.
const TERM: u16 = 512;

const TIE: u16 = 1024;

// Marks the entries of a step itself.
pub fn mark(s: Step, entries: &mut [bool])
    requires { (length entries.old ≡ 256) × Formed s × (s.first ≤ 129) × (s.second ≤ 129) }
    ensures { OwnMarked s entries.old entries.new }
{
    mark_walk(&s.there, s.first, entries);
    mark_walk(&s.back, s.second, entries);
    // A number: the record is lent as anybody states it.
    if s.kind == 3 {
        entries[s.a as usize] = true;
    }
}

fn mark_walk(bounds: &[u16], count: u8, entries: &mut [bool])
    requires { (count ≤ length bounds.now) × (length entries.old ≡ 256) }
    ensures { Added (Among OfEntry count bounds.now) entries.old entries.new }
{
    for &name in &bounds[..count as usize] {
        if name < TERM {
            entries[(name % 256) as usize] = true;
        }
    }
}

// The ties that a step rests on.
pub fn rests(sheet: &[u8], links: &[u64], paths: &[u64], s: Step) -> Ties
    requires { Lent sheet.now links.now paths.now × Standing sheet.now links.now paths.now s }
    ensures { (listed : Set) (steps : List RuleStep) (m : ℕ) (legs : List ℕ) (n : ℕ) → Stands (sheet_of sheet.now) listed steps m legs links.now paths.now n s → RestsOn (sheet_of sheet.now) steps n s result }
{
    match s.kind {
        1 => between_inputs(sheet, links, paths, s.a, s.b),
        3 => between_terms(sheet, links, paths, s.a),
        _ => {
            let first = of_walk(&s.there, s.first);
            let second = of_walk(&s.back, s.second);
            sets::either(first, second)
        }
    }
}

// The ties that a walk goes over.
fn of_walk(bounds: &[u16], count: u8) -> Ties
    requires { (count ≤ length bounds.now) × ((t : ℕ) → Among OfTie count bounds.now t → t < 128) }
    ensures { WalkAdds count bounds.now result }
{
    let mut ties = sets::none();
    for &name in &bounds[..count as usize] {
        if TIE <= name {
            ties = sets::either(ties, sets::only((name % 256) as u8));
        }
    }
    ties
}

// The ties on the paths between the arguments of two applications, first with first and second with second.
fn between_inputs(sheet: &[u8], links: &[u64], paths: &[u64], a: u8, b: u8) -> Ties
    requires { Lent sheet.now links.now paths.now × (a < count_terms (sheet_of sheet.now)) × (b < count_terms (sheet_of sheet.now)) }
    ensures { InputsSay links.now paths.now (term_at (sheet_of sheet.now) a) (term_at (sheet_of sheet.now) b) result }
{
    let f = reading::term_at(sheet, TermNumber(a));
    let g = reading::term_at(sheet, TermNumber(b));
    match f {
        Term::Apply(_, x) => match g {
            Term::Apply(_, y) => routes::between(links, paths, x.0, y.0),
            _ => sets::none(),
        },
        Term::Apply2(_, x, z) => match g {
            Term::Apply2(_, y, w) => {
                let first = routes::between(links, paths, x.0, y.0);
                let second = routes::between(links, paths, z.0, w.0);
                sets::either(first, second)
            }
            _ => sets::none(),
        },
        _ => sets::none(),
    }
}

// The ties on the path between the terms of an entry.
fn between_terms(sheet: &[u8], links: &[u64], paths: &[u64], e: u8) -> Ties
    requires { Lent sheet.now links.now paths.now × (e < count_entries (sheet_of sheet.now)) }
    ensures { PathSays links.now paths.now (entry_at (sheet_of sheet.now) e).a (entry_at (sheet_of sheet.now) e).b result }
{
    let entry = reading::entry_at(sheet, EntryNumber(e));
    routes::between(links, paths, entry.a.0, entry.b.0)
}
