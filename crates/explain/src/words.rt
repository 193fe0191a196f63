// Terms and entries in words: as a text has them, an unknown by its term's number.
ghost use Rattle.std.specs.Prelude.{◌≡◌, ◌+◌, ◌-◌, ◌%◌, ◌^◌, min};
ghost use lib.Dec.{ltb};

use crate::records;
use sheet::{Biased, EntryNumber, Relation, Term, TermNumber};
use std::{fmt, io};

// The most parts of a term that is written out wherever it stands. A larger one is t and its number there, and is written out once, since a
// term can have more parts than there is paper for.
const MOST: u8 = 32;

// Says the terms and entries of a sheet. It has how many parts each term has, up to one more than the most.
#[derive(Drop)]
pub struct Words<'a, P> {
    rt: &'a P,
    sheet: &'a [u8],
    sizes: [u8; 256],
}

impl<'a, P: Print> Words<'a, P> {
    pub fn new(rt: &'a P, sheet: &'a [u8]) -> Self {
        Words {
            rt,
            sheet,
            sizes: sizes(sheet),
        }
    }

    // The terms that aren't written out where they stand.
    pub fn say_large(&self) -> io::Result<()> {
        let t = records::count_terms(self.sheet);
        for i in 0..t {
            if MOST < self.sizes[usize::from(i)] {
                print!(self.rt; "t{i} is ")?;
                self.say_whole(TermNumber(i), MOST)?;
                println!(self.rt)?;
            }
        }
        Ok(())
    }

    // A point: a term, or the zero level.
    pub fn say_point(&self, i: u8) -> io::Result<()> {
        if i < records::count_terms(self.sheet) {
            self.say_term(TermNumber(i), MOST)
        } else {
            print!(self.rt; "0")
        }
    }

    // A term, or its number where it is large or lies too deep.
    #[cycle(say_term_say_whole)]
    fn say_term(&self, i: TermNumber, deep: u8) -> io::Result<()> {
        if 0 < deep && self.sizes[usize::from(i.0)] <= MOST {
            self.say_whole(i, deep - 1)
        } else {
            self.say_named("t", i.0, "")
        }
    }

    // A term as it is typed.
    #[cycle(say_term_say_whole)]
    fn say_whole(&self, i: TermNumber, deep: u8) -> io::Result<()> {
        match records::term(self.sheet, i) {
            Term::Unknown => self.say_named("x", i.0, ""),
            Term::Number(c) => self.say_number(c),
            Term::Shift(a, c) => {
                self.say_term(a, deep)?;
                self.say_shift(c)
            }
            Term::Apply(f, a) => {
                self.say_named("f", f.0, "(")?;
                self.say_term(a, deep)?;
                self.say_mark(")")
            }
            Term::Apply2(f, a, b) => {
                self.say_named("f", f.0, "(")?;
                self.say_term(a, deep)?;
                self.say_mark(",")?;
                self.say_term(b, deep)?;
                self.say_mark(")")
            }
        }
    }

    // These four are functions, and stay so, since print! takes a buffer: it isn't to lie in the frame of each term within a term.
    #[inline(never)]
    fn say_named(&self, letter: &str, number: u8, behind: &str) -> io::Result<()> {
        print!(self.rt; "{letter}{number}{behind}")
    }

    #[inline(never)]
    fn say_number(&self, c: Biased) -> io::Result<()> {
        print!(self.rt; "{}", Signed(c))
    }

    #[inline(never)]
    fn say_shift(&self, c: Biased) -> io::Result<()> {
        print!(self.rt; "{:+}", Signed(c))
    }

    #[inline(never)]
    fn say_mark(&self, mark: &str) -> io::Result<()> {
        print!(self.rt; "{mark}")
    }

    // An entry by its number and in words.
    pub fn say_entry(&self, e: EntryNumber) -> io::Result<()> {
        let entry = records::entry(self.sheet, e);
        print!(self.rt; "entry {}: ", e.0)?;
        self.say_point(entry.a.0)?;
        print!(self.rt; "{}", sign(entry.relation))?;
        self.say_point(entry.b.0)?;
        println!(self.rt; "{}", Gap(gap_of(entry.c)))
    }
}

fn sizes(sheet: &[u8]) -> [u8; 256] {
    let t = records::count_terms(sheet);
    let mut sizes = [0u8; 256];
    for i in 0..t {
        sizes[usize::from(i)] = parts(records::term(sheet, TermNumber(i)), &sizes);
    }
    sizes
}

fn parts(term: Term, sizes: &[u8; 256]) -> u8 {
    match term {
        Term::Unknown | Term::Number(_) => 1,
        Term::Shift(a, _) | Term::Apply(_, a) => together(sizes[usize::from(a.0)], 0),
        Term::Apply2(_, a, b) => together(sizes[usize::from(a.0)], sizes[usize::from(b.0)]),
    }
}

fn together(a: u8, b: u8) -> u8
    ensures { result ≡ min (a + b) 32 + 1 }
{
    a.saturating_add(b).min(MOST) + 1
}

fn sign(relation: Relation) -> &'static str {
    match relation {
        Relation::Equal => "=",
        Relation::Unequal => "!=",
        Relation::AtMost => "<=",
        Relation::Less => "<",
    }
}

// c as it is typed: a number by itself, and by {:+} a shift with its sign.
#[derive(Clone, Copy)]
struct Signed(Biased);

impl fmt::Display for Signed {
    fn fmt<W: fmt::Write>(&self, f: &mut fmt::Formatter<W>) -> fmt::Result {
        let (below, far) = typed(self.0);
        if below {
            write!(f, "-{far}")
        } else if f.sign_plus() {
            write!(f, "+{far}")
        } else {
            write!(f, "{far}")
        }
    }
}

// Whether c is below 0, and how far it is from it.
fn typed(c: Biased) -> (bool, u16)
    ensures below { result.0 ≡ ltb c.0 32768 }
    ensures far { result.1 ≡ (c.0 - 32768) + (32768 - c.0) }
{
    (c.0 < 32768, c.0.abs_diff(32768))
}

// c as a record has it, two's complement of eight bytes.
pub fn gap_of(c: Biased) -> u64
    ensures { (result + 32768) % 2 ^ 64 ≡ c.0 }
{
    u64::from(c.0).wrapping_sub(32768)
}

// What is added, two's complement of eight bytes: nothing is said of 0.
#[derive(Clone, Copy)]
pub struct Gap(pub u64);

impl fmt::Display for Gap {
    fn fmt<W: fmt::Write>(&self, f: &mut fmt::Formatter<W>) -> fmt::Result {
        match self.0 {
            0 => Ok(()),
            c if c < 1 << 63 => write!(f, "+{c}"),
            c => write!(f, "-{}", c.wrapping_neg()),
        }
    }
}
