// The sheet: abstract in specs/, with its decoding from bytes and its limits; and its terms and entries by value, made of a record's fields.
// It rests on big's numbers, and promises that what a record makes is what specs/ decodes of it. Records are read by reading.
#![tactic(auto)]

ghost use Rattle.std.specs.Prelude.{◌≡◌};
ghost use Rattle.big.specs.Big.{signed_of};
ghost use Rattle.sheet.specs.Decode.{decode_term, decode_entry, relation_of};
ghost use Rattle.sheet.specs.Says.{term_says, entry_says, biased_says, relation_says};

// The limits of a sheet: T is 1 to MAX_TERMS, L is 0 to MAX_ENTRIES.
pub const MAX_TERMS: usize = 128;

pub const MAX_ENTRIES: usize = 128;

// The length of the longest sheet, and the answer room that every sheet's answer fits in.
pub const LONGEST: usize = 6 + 6 * MAX_TERMS + 6 * MAX_ENTRIES;

pub const ROOM_NEEDED: usize = 8 + 8 * MAX_TERMS;

// A term number and an entry number: one is never taken for the other.
#[derive(Clone, Copy, PartialEq, Eq)]
pub struct TermNumber(pub u8);

#[derive(Clone, Copy, PartialEq, Eq)]
pub struct EntryNumber(pub u8);

#[derive(Clone, Copy, PartialEq, Eq)]
pub struct Symbol(pub u8);

// c, held as c + 32,768, so that no code needs a sign.
#[derive(Clone, Copy)]
pub struct Biased(pub u16);

impl Biased {
    pub const ZERO: Biased = Biased(32768);
}

#[derive(Clone, Copy)]
pub enum Term {
    Unknown,
    Number(Biased),
    Shift(TermNumber, Biased),
    Apply(Symbol, TermNumber),
    Apply2(Symbol, TermNumber, TermNumber),
}

#[derive(Clone, Copy, PartialEq, Eq)]
pub enum Relation {
    Equal,
    Unequal,
    AtMost,
    Less,
}

// Compares term a with (term b plus c).
#[derive(Clone, Copy)]
pub struct Entry {
    pub relation: Relation,
    pub a: TermNumber,
    pub b: TermNumber,
    pub c: Biased,
}

// The six bytes of a record, c's two as one number.
#[derive(Clone, Copy)]
pub struct Fields {
    pub kind: u8,
    pub symbol: u8,
    pub a: u8,
    pub b: u8,
    pub c: u16,
}

// The term that a record's fields make.
impl From<Fields> for Term {
    ghost from_gives = { λ f term. term_says term ≡ decode_term f };

    fn from(f: Fields) -> Term {
        match f.kind {
            1 => Term::Number(biased_of(f.c)),
            2 => Term::Shift(TermNumber(f.a), biased_of(f.c)),
            3 => Term::Apply(Symbol(f.symbol), TermNumber(f.a)),
            4 => Term::Apply2(Symbol(f.symbol), TermNumber(f.a), TermNumber(f.b)),
            _ => Term::Unknown,
        }
    }
}

// The entry that a record's fields make.
impl From<Fields> for Entry {
    ghost from_gives = { λ f entry. entry_says entry ≡ decode_entry f };

    fn from(f: Fields) -> Entry {
        Entry {
            relation: Relation::from(f.kind),
            a: TermNumber(f.a),
            b: TermNumber(f.b),
            c: biased_of(f.c),
        }
    }
}

// The relation of an entry's kind.
impl From<u8> for Relation {
    ghost from_gives = { λ kind relation. relation_says relation ≡ relation_of kind };

    fn from(kind: u8) -> Relation {
        match kind {
            1 => Relation::Unequal,
            2 => Relation::AtMost,
            3 => Relation::Less,
            _ => Relation::Equal,
        }
    }
}

// c of its two bytes, which are two's complement.
fn biased_of(c: u16) -> Biased
    ensures { biased_says result ≡ signed_of 2 c }
{
    if c < 32768 {
        Biased(c + 32768)
    } else {
        Biased(c - 32768)
    }
}
