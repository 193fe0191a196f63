// Steps in words: each with the bounds of its walks, one a line, and what these come to.
ghost use Rattle.std.specs.Prelude.{◌≡◌, ◌+◌, ◌%◌, ◌^◌, ◌||◌};

use crate::records;
use crate::records::byte;
use crate::words::{Gap, Words, gap_of};
use paper::StepKind;
use sheet::{EntryNumber, Relation, Term, TermNumber};
use std::{fmt, io};

// The most steps of a reason, and the bytes of one without its bounds.
const MOST: usize = sheet::MAX_TERMS + 1;

const HEAD: u16 = 13;

// A bound, or what bounds come to: level `from` is at most level `to` + c, or less. c is two's complement.
#[derive(Clone, Copy)]
struct Leg {
    from: u8,
    to: u8,
    c: u64,
    strict: bool,
}

// What a bound is of. Each has two numbers of kinds, the even one for the bound and the odd one for it backwards.
#[derive(Clone, Copy)]
enum Source {
    Entry,
    Term,
    Step,
}

impl From<u8> for Source {
    fn from(kind: u8) -> Source {
        match kind / 2 {
            0 => Source::Entry,
            1 => Source::Term,
            _ => Source::Step,
        }
    }
}

impl fmt::Display for Source {
    fn fmt<W: fmt::Write>(&self, f: &mut fmt::Formatter<W>) -> fmt::Result {
        f.write_str(match self {
            Source::Entry => "entry",
            Source::Term => "term",
            Source::Step => "step",
        })
    }
}

// Says the steps of a reason record, in the words of its sheet. It has where the steps before the one that is said begin.
#[derive(Drop)]
pub struct Reasoning<'a, P> {
    rt: &'a P,
    sheet: &'a [u8],
    words: &'a Words<'a, P>,
    record: &'a [u8],
    starts: [u32; 256],
}

impl<'a, P: Print> Reasoning<'a, P> {
    pub fn new(rt: &'a P, sheet: &'a [u8], words: &'a Words<'a, P>, record: &'a [u8]) -> Self {
        Reasoning {
            rt,
            sheet,
            words,
            record,
            starts: [0; 256],
        }
    }

    // The steps, which begin behind the list of k entries.
    pub fn say_all(&mut self, k: u16) -> io::Result<()> {
        let count = usize::from(records::pair(self.record, 8));
        let mut at = paper::HEAD as u32 + u32::from(k);
        for n in 0..count.min(MOST) {
            self.starts[n] = at;
            print!(self.rt; "step {n}: ")?;
            at += u32::from(self.say_step(at)?);
        }
        Ok(())
    }

    // The step that begins at `at`; how many bytes it has.
    fn say_step(&self, at: u32) -> io::Result<u16> {
        let first = at as usize;
        let a = byte(self.record, first + 1);
        let b = byte(self.record, first + 2);
        let there = byte(self.record, first + 11);
        let back = byte(self.record, first + 12);
        let second = HEAD + 2 * u16::from(there);
        match StepKind::try_from(byte(self.record, first)) {
            Ok(StepKind::ByWalks) => {
                self.say_tied(a, b, records::step_c(self.record, at))?;
                self.say_walk(a, at, HEAD, there)?;
                self.say_walk(b, at, second, back)?;
            }
            Ok(StepKind::ByFunctions) => {
                self.say_tied(a, b, 0)?;
                self.say_arguments(a, b)?;
            }
            Ok(StepKind::ClosingWalk) => {
                println!(self.rt; "a walk that closes")?;
                self.say_walk(a, at, HEAD, there)?;
                println!(self.rt; "  which can't be")?;
            }
            // no step of a record has another number
            Ok(StepKind::ClosingEntry) | Err(_) => {
                self.words.say_entry(EntryNumber(a))?;
                println!(self.rt; "  which can't be: by the ties they are equal")?;
            }
        }
        Ok(second + 2 * u16::from(back))
    }

    fn say_tied(&self, a: u8, b: u8, c: u64) -> io::Result<()> {
        self.words.say_point(a)?;
        print!(self.rt; " = ")?;
        self.words.say_point(b)?;
        println!(self.rt; "{}", Gap(c))
    }

    // That the arguments of two applications are tied.
    fn say_arguments(&self, i: u8, j: u8) -> io::Result<()> {
        let f = records::term(self.sheet, TermNumber(i));
        let g = records::term(self.sheet, TermNumber(j));
        match f {
            Term::Apply(_, a) => self.say_first(a, g),
            Term::Apply2(_, a, b) => {
                self.say_first(a, g)?;
                self.say_second(b, g)
            }
            _ => Ok(()),
        }
    }

    fn say_first(&self, a: TermNumber, g: Term) -> io::Result<()> {
        print!(self.rt; "  since ")?;
        match g {
            Term::Apply(_, c) | Term::Apply2(_, c, _) => self.say_tied(a.0, c.0, 0),
            _ => Ok(()),
        }
    }

    fn say_second(&self, b: TermNumber, g: Term) -> io::Result<()> {
        print!(self.rt; "  and ")?;
        match g {
            Term::Apply2(_, _, d) => self.say_tied(b.0, d.0, 0),
            _ => Ok(()),
        }
    }

    // The bounds of a walk from a, `skip` bytes behind where its step begins, and what they come to.
    fn say_walk(&self, a: u8, at: u32, skip: u16, count: u8) -> io::Result<()> {
        let first = at as usize + usize::from(skip);
        let mut sum = Leg {
            from: a,
            to: a,
            c: 0,
            strict: false,
        };
        for x in 0..count {
            let bound = first + 2 * usize::from(x);
            let leg = self.say_bound(byte(self.record, bound), byte(self.record, bound + 1))?;
            sum = behind(sum, leg);
        }
        print!(self.rt; "  so ")?;
        self.say_leg(sum)?;
        println!(self.rt)
    }

    fn say_bound(&self, kind: u8, n: u8) -> io::Result<Leg> {
        let leg = self.leg_of(kind, n);
        print!(self.rt; "  ")?;
        self.say_leg(leg)?;
        println!(self.rt; " by {} {n}", Source::from(kind))?;
        Ok(leg)
    }

    fn say_leg(&self, leg: Leg) -> io::Result<()> {
        self.words.say_point(leg.from)?;
        print!(self.rt; "{}", if leg.strict { " < " } else { " <= " })?;
        self.words.say_point(leg.to)?;
        print!(self.rt; "{}", Gap(leg.c))
    }

    // A bound by its kind and number, the odd kinds backwards.
    fn leg_of(&self, kind: u8, n: u8) -> Leg {
        let leg = match Source::from(kind) {
            Source::Entry => entry_leg(records::entry(self.sheet, EntryNumber(n))),
            Source::Term => term_leg(self.sheet, TermNumber(n)),
            Source::Step => tie_leg(self.record, self.starts[usize::from(n)]),
        };
        if kind % 2 == 0 { leg } else { turned(leg) }
    }
}

fn behind(sum: Leg, leg: Leg) -> Leg
    ensures { (result.from ≡ sum.from) × (result.to ≡ leg.to) × (result.c ≡ (sum.c + leg.c) % 2 ^ 64) × (result.strict ≡ sum.strict || leg.strict) }
{
    Leg {
        from: sum.from,
        to: leg.to,
        c: sum.c.wrapping_add(leg.c),
        strict: sum.strict | leg.strict,
    }
}

fn turned(leg: Leg) -> Leg
    ensures { (result.from ≡ leg.to) × (result.to ≡ leg.from) × ((result.c + leg.c) % 2 ^ 64 ≡ 0) × (result.strict ≡ leg.strict) }
{
    Leg {
        from: leg.to,
        to: leg.from,
        c: leg.c.wrapping_neg(),
        strict: leg.strict,
    }
}

fn entry_leg(entry: sheet::Entry) -> Leg
    ensures { (result.from ≡ entry.a.0) × (result.to ≡ entry.b.0) × ((result.c + 32768) % 2 ^ 64 ≡ entry.c.0) }
{
    Leg {
        from: entry.a.0,
        to: entry.b.0,
        c: gap_of(entry.c),
        strict: entry.relation == Relation::Less,
    }
}

// A number is tied to the zero level, a shift to its argument.
fn term_leg(sheet: &[u8], i: TermNumber) -> Leg {
    match records::term(sheet, i) {
        Term::Number(c) => Leg {
            from: i.0,
            to: records::count_terms(sheet),
            c: gap_of(c),
            strict: false,
        },
        Term::Shift(a, c) => Leg {
            from: i.0,
            to: a.0,
            c: gap_of(c),
            strict: false,
        },
        _ => Leg {
            from: i.0,
            to: i.0,
            c: 0,
            strict: false,
        },
    }
}

fn tie_leg(record: &[u8], at: u32) -> Leg {
    let first = at as usize;
    Leg {
        from: byte(record, first + 1),
        to: byte(record, first + 2),
        c: records::step_c(record, at),
        strict: false,
    }
}
