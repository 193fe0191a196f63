// One step of a reason, by value: whether it is right by what is known before it; and a right tie noted for the steps behind it.
// It rests on the small tests of probes and what legs and links mean, and tells each step's rule exactly (specs/Ruled.antt).
#![tactic(auto)]

ghost use Rattle.std.specs.Prelude.{◌≡◌, cond, List, ℕ, ◌+◌, ◌%◌, ◌<◌, length, set};
ghost use Rattle.order.specs.First.{Set, marked};
ghost use Rattle.sheet.specs.Decode.{sheet_of};
ghost use Rattle.sheet.specs.Says.{term_says};
ghost use Rattle.reasons.specs.Step.{Step as RuleStep};
ghost use Rattle.legs.specs.Legs.{range, word_of, either_way, tie_place};
ghost use Rattle.links.specs.Links.{Rising, Joined};
ghost use Rattle.routes.specs.Routes.{LaidPath};
ghost use Rattle.linked.specs.Known.{Known};
ghost use Rattle.upheld.specs.declared.Ruling.TheVariants.{Wrong};
ghost use Rattle.upheld.specs.Ruled.{Asked, TellsInput, TellsTie, TellsClosing, Ruled};

use legs::RANGE;
use sheet::{EntryNumber, Relation, Term, TermNumber};
use stated::Step;

#[derive(Clone, Copy)]
pub enum Ruling {
    Wrong,
    Ties,
    Closes,
}

pub fn ruling_on(sheet: &[u8], listed: &[bool], legs: &[u64], links: &[u64], s: Step) -> Ruling
    requires { Asked sheet.now legs.now links.now × (length listed.now ≡ 256) }
    ensures { (steps : List RuleStep) (n : ℕ) → Known (sheet_of sheet.now) (marked listed.now) steps n legs.now links.now → Ruled (sheet_of sheet.now) (marked listed.now) steps n s result }
{
    // A number, no enum: a record as anybody states it may have any.
    match s.kind {
        0 => ruled(by_walks(sheet, legs, links, s), Ruling::Ties),
        1 => ruled(by_functions(sheet, legs, links, s), Ruling::Ties),
        2 => ruled(closing_walk(sheet, legs, links, s), Ruling::Closes),
        3 => ruled(closing_entry(sheet, listed, legs, links, s), Ruling::Closes),
        _ => Ruling::Wrong,
    }
}

// What a right step does.
fn ruled(right: bool, does: Ruling) -> Ruling
    ensures { result ≡ cond right does Wrong }
{
    if right { does } else { Ruling::Wrong }
}

// A tie from two walks of which none is strict: one from a to b that comes to c, one from b to a that comes to -c.
fn by_walks(sheet: &[u8], legs: &[u64], links: &[u64], s: Step) -> bool
    requires { Asked sheet.now legs.now links.now × (s.kind ≡ 0) }
    ensures { TellsTie sheet.now legs.now links.now s result }
{
    let zero = sheet[3];
    if (zero < s.a) | (zero < s.b) | !probes::within(s.c) {
        return false;
    }
    if probes::tied(links, s.a, s.b) {
        return false;
    }
    let c = s.c % RANGE;
    probes::goes_to(legs, zero, &s.there, s.first, s.a, s.b, c)
        && probes::goes_to(legs, zero, &s.back, s.second, s.b, s.a, (RANGE - c) % RANGE)
}

// A tie, with c = 0, of two applications whose arguments are tied with gap 0.
fn by_functions(sheet: &[u8], legs: &[u64], links: &[u64], s: Step) -> bool
    requires { Asked sheet.now legs.now links.now × (s.kind ≡ 1) }
    ensures { TellsTie sheet.now legs.now links.now s result }
{
    let zero = sheet[3];
    if (s.c != 0) | (s.first != 0) | (s.second != 0) | (zero <= s.a) | (zero <= s.b) {
        return false;
    }
    if probes::tied(links, s.a, s.b) {
        return false;
    }
    let f = reading::term_at(sheet, TermNumber(s.a));
    let g = reading::term_at(sheet, TermNumber(s.b));
    same_input(links, f, g)
}

fn same_input(links: &[u64], f: Term, g: Term) -> bool
    requires { (length links.now ≡ 256) × Rising links.now }
    ensures { TellsInput links.now (term_says f) (term_says g) result }
{
    match (f, g) {
        (Term::Apply(x, a), Term::Apply(y, b)) => x == y && probes::tied_at(links, a.0, b.0, 0),
        (Term::Apply2(x, a, b), Term::Apply2(y, c, d)) => {
            x == y && probes::tied_at(links, a.0, c.0, 0) && probes::tied_at(links, b.0, d.0, 0)
        }
        _ => false,
    }
}

// A walk from a point to itself with total below zero, or zero with a strict bound.
fn closing_walk(sheet: &[u8], legs: &[u64], links: &[u64], s: Step) -> bool
    requires { Asked sheet.now legs.now links.now × (s.kind ≡ 2) }
    ensures { (listed : Set) → TellsClosing sheet.now legs.now links.now listed s result }
{
    let zero = sheet[3];
    if (s.b != 0) | (s.c != 0) | (s.second != 0) | (zero < s.a) {
        return false;
    }
    if zero as u16 + 1 < s.first as u16 {
        return false;
    }
    let Some(end) = legs::walk(legs, &s.there, s.first, s.a) else {
        return false;
    };
    end.at == s.a && probes::under(end)
}

// A ≠ entry on terms that are tied at exactly its c.
fn closing_entry(sheet: &[u8], listed: &[bool], legs: &[u64], links: &[u64], s: Step) -> bool
    requires { Asked sheet.now legs.now links.now × (length listed.now ≡ 256) × (s.kind ≡ 3) }
    ensures { TellsClosing sheet.now legs.now links.now (marked listed.now) s result }
{
    if (s.b != 0) | (s.c != 0) | (s.first != 0) | (s.second != 0) | (sheet[4] <= s.a) {
        return false;
    }
    if !listed[s.a as usize] {
        return false;
    }
    let entry = reading::entry_at(sheet, EntryNumber(s.a));
    match entry.relation {
        Relation::Unequal => probes::tied_at(links, entry.a.0, entry.b.0, legs::gap_of(entry.c)),
        _ => false,
    }
}

// Notes tie n for the steps behind it: its leg, its path, and its groups joined.
pub fn note(legs: &mut [u64], links: &mut [u64], paths: &mut [u64], n: u8, s: Step)
    requires { (length legs.old ≡ 768) × (length links.old ≡ 256) × Rising links.old × (length paths.old ≡ 512) × (n < 128) }
    ensures leg { legs.new ≡ set legs.old (tie_place + n) (word_of either_way (s.c % range) s.a s.b) }
    ensures path { LaidPath links.old paths.old paths.new n s.a s.b }
    ensures groups { Joined links.old links.new n s.a s.b (s.c % range) }
{
    let c = s.c % RANGE;
    legs::lay_tie(legs, n, s.a, s.b, c);
    routes::lay(links, paths, n, s.a, s.b);
    links::join(links, n, s.a, s.b, c);
}
