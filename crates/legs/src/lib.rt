// Bounds as legs: where each goes from and to, its gap, and which way it may be gone, packed in a number; one for each entry that is
// listed, each term and each tie. And walks over them.
// It rests on the sheet's terms and entries, knows nothing of tables, and promises of each leg the number that specs/ gives it.
#![tactic(auto)]

ghost use Rattle.std.specs.Prelude.{cond, ◌≡◌, ◌+◌, ◌≤◌, ◌<◌, length, set, take};
ghost use Rattle.order.specs.First.{marked};
ghost use Rattle.sheet.specs.Says.{term_says, entry_says, biased_says};
ghost use Rattle.sheet.specs.Sheet.{count_terms, count_entries};
ghost use Rattle.legs.specs.Legs.{range, gap_for, word_of, way_of, gap_of, from_of, to_of, way_says, either_way, term_leg, entry_leg, tie_place, LaidEntries, LaidTerms, Laid, start_at, FurtherSays, WalkSays};

use reading::Sheet;
use sheet::{Biased, Entry, EntryNumber, Relation, Term, TermNumber};

// Gaps are two's complement of five bytes: whatever ties and walks of a right reason come to lies within them.
pub const RANGE: u64 = 1099511627776;

// Where the legs of terms and of ties begin, and how many legs there are.
const TERMS: usize = 256;

const TIES: usize = 512;

pub const LEGS: usize = 768;

// Which way a leg may be gone: forwards, forwards as a strict bound, either way. A leg that isn't there is 0.
#[derive(Clone, Copy)]
enum Way {
    Forwards = 1,
    Strict = 2,
    Either = 3,
}

// Where a walk has come to: the point, the sum of its gaps, and whether one of them is strict.
#[derive(Clone, Copy)]
pub struct Stand {
    pub at: u8,
    pub gap: u64,
    pub strict: bool,
}

fn word(way: Way, gap: u64, from: u8, to: u8) -> u64
    requires { gap < range }
    ensures { result ≡ word_of (way_says way) gap from to }
{
    ((way as u64 * RANGE + gap) * 256 + from as u64) * 256 + to as u64
}

// The number of the way that a leg may be gone, and 0 for one that isn't there: it is only compared, so that no leg is decoded to a Way.
fn code(leg: u64) -> u8
    ensures { result ≡ way_of leg }
{
    (leg / (65536 * RANGE)) as u8
}

fn gap(leg: u64) -> u64
    ensures { result ≡ gap_of leg }
{
    leg / 65536 % RANGE
}

fn from(leg: u64) -> u8
    ensures { result ≡ from_of leg }
{
    (leg / 256 % 256) as u8
}

fn to(leg: u64) -> u8
    ensures { result ≡ to_of leg }
{
    (leg % 256) as u8
}

// c as a gap.
pub fn gap_of(c: Biased) -> u64
    ensures { (result ≡ gap_for (biased_says c)) × (result < range) }
{
    (c.0 as u64 + RANGE - 32768) % RANGE
}

// The legs of the entries that are listed, and of the terms. There are none of ties yet.
pub fn lay(sheet: &Sheet, listed: &[bool], legs: &mut [u64])
    requires { (length listed.now ≡ 256) × (length legs.old ≡ 768) }
    ensures { Laid sheet.now (marked listed.now) legs.old legs.new }
{
    sheet.formed();
    lay_entries(sheet, listed, legs);
    lay_terms(sheet, legs);
}

fn lay_entries(sheet: &Sheet, listed: &[bool], legs: &mut [u64])
    requires { (length listed.now ≡ 256) × (length legs.old ≡ 768) }
    ensures { LaidEntries sheet.now (marked listed.now) (count_entries sheet.now) legs.old legs.new }
{
    let count = sheet.count_entries();
    for e in 0..count {
        legs[e] = entry_leg(sheet.entry_at(EntryNumber(e as u8)), listed[e]);
    }
}

fn lay_terms(sheet: &Sheet, legs: &mut [u64])
    requires { length legs.old ≡ 768 }
    ensures { LaidTerms sheet.now (count_terms sheet.now) legs.old legs.new }
{
    let count = sheet.count_terms();
    for i in 0..count {
        let own = TermNumber(i as u8);
        legs[TERMS + i] = term_leg(own, sheet.term_at(own), count as u8);
    }
}

// A ≤, < or = entry that is listed.
fn entry_leg(entry: Entry, listed: bool) -> u64
    ensures { result ≡ entry_leg listed (entry_says entry) }
{
    if !listed {
        return 0;
    }
    let relation = entry.relation;
    let way = match relation {
        Relation::Equal => Way::Either,
        Relation::Unequal => return 0,
        Relation::AtMost => Way::Forwards,
        Relation::Less => Way::Strict,
    };
    word(way, gap_of(entry.c), entry.a.0, entry.b.0)
}

// A number goes to the zero level, a shift to its argument.
fn term_leg(own: TermNumber, term: Term, zero: u8) -> u64
    ensures { result ≡ term_leg zero own.0 (term_says term) }
{
    match term {
        Term::Number(c) => word(Way::Either, gap_of(c), own.0, zero),
        Term::Shift(a, c) => word(Way::Either, gap_of(c), own.0, a.0),
        _ => 0,
    }
}

// Tie t, a = b + gap, laid behind those before it.
pub fn lay_tie(legs: &mut [u64], t: u8, a: u8, b: u8, gap: u64)
    requires { (length legs.old ≡ 768) × (gap < range) }
    ensures { legs.new ≡ set legs.old (tie_place + t) (word_of either_way gap a b) }
{
    legs[TIES + t as usize] = word(Way::Either, gap, a, b);
}

// The walk from a point over the first bounds of a row, each a kind times 256 and a number: where it comes to, if it can be gone.
pub fn walk(legs: &[u64], bounds: &[u16], count: u8, start: u8) -> Option<Stand>
    requires { (length legs.now ≡ 768) × (count ≤ length bounds.now) }
    ensures { WalkSays legs.now (take count bounds.now) (start_at start) result }
{
    let mut stand = Stand {
        at: start,
        gap: 0,
        strict: false,
    };
    for name in &bounds[..count as usize] {
        if *name >= 1536 {
            return None;
        }
        let leg = legs[(*name / 512 * 256 + *name % 256) as usize];
        stand = further(leg, *name / 256 % 2 == 1, stand)?;
    }
    Some(stand)
}

// One leg further, forwards or back.
fn further(leg: u64, back: bool, stand: Stand) -> Option<Stand>
    requires { stand.gap < range }
    ensures { FurtherSays leg (cond back 1 0) stand result }
{
    if back {
        if code(leg) == Way::Either as u8 && to(leg) == stand.at {
            return Some(Stand {
                at: from(leg),
                gap: (stand.gap + (RANGE - gap(leg))) % RANGE,
                strict: stand.strict,
            });
        }
        return None;
    }
    if code(leg) != 0 && from(leg) == stand.at {
        return Some(Stand {
            at: to(leg),
            gap: (stand.gap + gap(leg)) % RANGE,
            strict: stand.strict | (code(leg) == Way::Strict as u8),
        });
    }
    None
}
