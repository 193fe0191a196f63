// What a sheet asks, noted as numbers in the search's memory: bounds between points, which are the terms and the zero level, and the
// applications.
// It rests on the sheet's readers.
// It promises which number each bound and each application is, and that what is noted stays within the memory.
#![tactic(auto)]

ghost use Rattle.std.specs.Prelude.{◌≡◌, ◌+◌, ◌*◌, ◌%◌, ◌≤◌, ◌<◌, length};
ghost use Rattle.sheet.specs.Limits.{max_terms};
ghost use Rattle.sheet.specs.Says.{term_says};
ghost use Rattle.sheet.specs.Sheet.{count_entries};
ghost use Rattle.notes.specs.Limits.{places, memory, slacks};
ghost use Rattle.notes.specs.Noted.{bound_of, application_of, noted_of};
ghost use Rattle.notes.specs.Search.{Worked};

use reading::Sheet;
use sheet::{Biased, Entry, EntryNumber, Relation, Term, TermNumber};

// Places for points: more than there are, so that what is left of any number below it is a place, and a power of two as long as the limit
// of terms is one, so that this is quick.
pub const PLACES: usize = 2 * sheet::MAX_TERMS;

// The memory is one array. It begins with a level for each point; then come, for each, the place of the bound that lowered it last, the mark
// of the walk that saw it, and the place of a bound that leads on from it.
pub const BY: usize = PLACES;

pub const MARKS: usize = 2 * PLACES;

pub const ON: usize = 3 * PLACES;

// Shelves with the numbers of applications, the applications, with none behind the last, and the input of each.
pub const SHELVES: usize = 4 * PLACES;

pub const APPLICATIONS: usize = 5 * PLACES;

pub const INPUTS: usize = APPLICATIONS + sheet::MAX_TERMS;

// Bounds: two for each term and each entry, since a term without a bound of its own may be tied as an application, once.
pub const BOUNDS: usize = INPUTS + sheet::MAX_TERMS;

pub const MEMORY: usize = BOUNDS + 2 * (sheet::MAX_TERMS + sheet::MAX_ENTRIES);

// Slacks are less than this.
pub const SLACKS: usize = 1024;

// The denominator: the largest that an answer may have and that is a multiple of SLACKS, so that slack stands apart from c in a bound's
// weight.
pub const D: usize = 65535 / SLACKS * SLACKS;

// A slack is even or odd by the entry's kind, and else one of so many. The slacks of all entries together stay below D, so that a circle of
// bounds with room for a whole number has room for them: on average one is about this large, and six are to spare for uneven ones.
const STEPS: usize = D / sheet::MAX_ENTRIES - 6;

// A bound's weight without slack is this much more than its c, biased, in parts of D.
pub const LOOSE: usize = SLACKS - 1;

// Half of what c can be: added, it leaves no c below 0.
pub const BIAS: usize = 32768;

// Over every level.
pub const TOP: usize = 17592186044416;

// A weight that lets point a be as high as point b: that of c = 0, biased, without slack.
pub const EVEN: usize = BIAS * D + LOOSE;

// A bound as one number: point a, point b, and the weight by which a may be over b.
pub const POINT: usize = PLACES;

pub const WEIGHT: usize = PLACES * POINT;

fn bound(a: usize, b: usize, c: usize, slack: usize) -> usize
    requires { (a < places) × (b < places) × (c ≤ 65536) × (slack < slacks) }
    ensures { result ≡ bound_of a b c slack }
{
    a + POINT * b + WEIGHT * (c * D + (LOOSE - slack))
}

// Puts a bound in the place, where there is one, and answers the next.
fn put(m: &mut [usize; MEMORY], at: usize, bound: usize) -> usize
    requires { at ≤ memory }
    ensures answer { (at ≤ result) × (result ≤ memory) }
    ensures worked { Worked m.old m.new }
{
    if MEMORY <= at {
        return at;
    }
    m[at] = bound;
    m[ON + bound / POINT % PLACES] = at;
    at + 1
}

// Notes that a is b and c: it is at most that, and that is at most it.
pub fn tie(m: &mut [usize; MEMORY], at: usize, a: usize, b: usize, c: Biased) -> usize
    requires { (at ≤ memory) × (a < places) × (b < places) }
    ensures answer { (at ≤ result) × (result ≤ memory) }
    ensures worked { Worked m.old m.new }
{
    let over = c.0 as usize;
    let next = put(m, at, bound(a, b, over, 0));
    put(m, next, bound(b, a, 2 * BIAS - over, 0))
}

// The bounds of the terms, from the first place on, and the applications; answers the place behind the bounds. The memory begins as
// zeros, so that none stands behind the last application.
pub fn note_terms(m: &mut [usize; MEMORY], sheet: &Sheet) -> usize
    ensures answer { result ≤ memory }
    ensures worked { Worked m.old m.new }
{
    let t = sheet.count_terms();
    let mut at = BOUNDS;
    let mut applied = APPLICATIONS;
    for i in 0..t {
        let own = TermNumber(i as u8);
        let term = sheet.term_at(own);
        at = note_term(m, at, own, t, term);
        if let Some(application) = application_of(own, term) {
            m[applied] = application;
            applied += 1;
        }
    }
    at
}

// A number is tied to the zero level z, and a shift to its term.
fn note_term(m: &mut [usize; MEMORY], at: usize, i: TermNumber, z: usize, x: Term) -> usize
    requires { (at ≤ memory) × (z ≤ max_terms) }
    ensures answer { result ≤ memory }
    ensures worked { Worked m.old m.new }
{
    match x {
        Term::Number(c) => tie(m, at, i.0 as usize, z, c),
        Term::Shift(a, c) => tie(m, at, i.0 as usize, a.0 as usize, c),
        _ => at,
    }
}

// The bounds of the set's entries, from a place on; answers the place behind them.
pub fn note_entries(m: &mut [usize; MEMORY], sheet: &Sheet, set: &[bool], before: usize) -> usize
    requires sheet_in_bounds { (count_entries sheet.now ≤ length set.now) × (before ≤ memory) }
    ensures answer { result ≤ memory }
    ensures worked { Worked m.old m.new }
{
    let l = sheet.count_entries();
    let mut at = before;
    for e in 0..l {
        if set[e] {
            let own = EntryNumber(e as u8);
            at = note_entry(m, at, own, sheet.entry_at(own));
        }
    }
    at
}

// = is a tie, and a ≠ is no bound. Of ≤ and < each has a slack of its own, so that most of what isn't tied comes apart; it is even for ≤,
// and odd for <. Sums of slacks can still be equal: then a guess is missed.
fn note_entry(m: &mut [usize; MEMORY], at: usize, e: EntryNumber, x: Entry) -> usize
    requires { at ≤ memory }
    ensures answer { result ≤ memory }
    ensures worked { Worked m.old m.new }
{
    let a = x.a.0 as usize;
    let b = x.b.0 as usize;
    let slack = 2 + 2 * ((e.0 as usize) * 113 % STEPS);
    match x.relation {
        Relation::Equal => tie(m, at, a, b, x.c),
        Relation::Unequal => at,
        Relation::AtMost => put(m, at, bound(a, b, x.c.0 as usize, slack)),
        Relation::Less => put(m, at, bound(a, b, x.c.0 as usize, slack + 1)),
    }
}

// An application is one number: its own, its two arguments, and its kind and symbol.
fn application_of(i: TermNumber, x: Term) -> Option<usize>
    ensures { result ≡ noted_of i.0 (term_says x) }
{
    match x {
        Term::Apply(f, a) => Some(application(i, a, TermNumber(0), 256 + f.0 as usize)),
        Term::Apply2(f, a, b) => Some(application(i, a, b, f.0 as usize)),
        _ => None,
    }
}

fn application(i: TermNumber, a: TermNumber, b: TermNumber, key: usize) -> usize
    requires { key < 512 }
    ensures { result ≡ application_of i.0 a.0 b.0 key }
{
    ONE + i.0 as usize + FIRST * a.0 as usize + SECOND * b.0 as usize + KEY * key
}

// The fields of an application: its arguments, its kind and symbol, and a mark that it is one.
pub const FIRST: usize = PLACES;

pub const SECOND: usize = PLACES * FIRST;

pub const KEY: usize = PLACES * SECOND;

const ONE: usize = 512 * KEY;
