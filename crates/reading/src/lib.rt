// A sheet's counts, terms and entries, read from its bytes.
// It rests on the sheet's records. Its readers ask for a sheet of the stated size and promise nothing of one that isn't.
#![tactic(auto)]

ghost use Rattle.std.specs.Prelude.{◌≡◌, ◌+◌, ◌≤◌, ◌<◌, length};
ghost use Rattle.sheet.specs.Decode.{Sized, fields_at, decode_term, sheet_of};
ghost use Rattle.sheet.specs.Says.{term_says, entry_says};
ghost use Rattle.sheet.specs.Sheet.{WellFormed, count_terms, count_entries, term_at, entry_at};

use sheet::{Entry, EntryNumber, Fields, Term, TermNumber};
use std::marker::Model;

// A sheet that the table doesn't send back. Contracts see it as the abstract sheet that its bytes decode to.
#[derive(Drop)]
pub struct Sheet<'a> {
    bytes: &'a [u8],
}

impl<'a> Model for Sheet<'a> {
    ghost use Rattle.sheet.specs.Sheet.{Sheet, WellFormed};
    ghost use Rattle.sheet.specs.Decode.{Sized, sheet_of};

    ghost Value = { Sheet };

    ghost view = { λ s. sheet_of s.bytes.now };

    ghost invariant = { λ s. Sized s.bytes.now × WellFormed (sheet_of s.bytes.now) };
}

impl<'a> Sheet<'a> {
    pub fn of(bytes: &'a [u8]) -> Sheet<'a>
        requires { Sized bytes.now × WellFormed (sheet_of bytes.now) }
        ensures { result ≡ sheet_of bytes.now }
    {
        Sheet { bytes }
    }

    // What each of them is, for who counts nothing.
    pub fn formed(&self)
        ensures { WellFormed self.now }
    {
        let _ = &self.bytes;
    }

    pub fn count_terms(&self) -> usize
        ensures count { (result ≡ count_terms self.now) × (result < 256) }
        ensures formed { WellFormed self.now }
    {
        count_terms(self.bytes)
    }

    pub fn count_entries(&self) -> usize
        ensures count { (result ≡ count_entries self.now) × (result < 256) }
        ensures formed { WellFormed self.now }
    {
        count_entries(self.bytes)
    }

    pub fn term_at(&self, i: TermNumber) -> Term
        requires { i.0 < count_terms self.now }
        ensures { term_says result ≡ term_at self.now i.0 }
    {
        term_at(self.bytes, i)
    }

    // The record of term i.
    pub fn record_of(&self, i: TermNumber) -> Fields
        requires { i.0 < count_terms self.now }
        ensures { decode_term result ≡ term_at self.now i.0 }
    {
        fields_at(self.bytes, 6 + 6 * i.0 as usize)
    }

    pub fn entry_at(&self, e: EntryNumber) -> Entry
        requires { e.0 < count_entries self.now }
        ensures { entry_says result ≡ entry_at self.now e.0 }
    {
        entry_at(self.bytes, e)
    }
}

pub fn count_terms(sheet: &[u8]) -> usize
    requires { 6 ≤ length sheet.now }
    ensures { (result ≡ count_terms (sheet_of sheet.now)) × (result < 256) }
{
    sheet[3] as usize
}

pub fn count_entries(sheet: &[u8]) -> usize
    requires { 6 ≤ length sheet.now }
    ensures { (result ≡ count_entries (sheet_of sheet.now)) × (result < 256) }
{
    sheet[4] as usize
}

pub fn term_at(sheet: &[u8], i: TermNumber) -> Term
    requires { Sized sheet.now × (i.0 < count_terms (sheet_of sheet.now)) }
    ensures { term_says result ≡ term_at (sheet_of sheet.now) i.0 }
{
    let at = 6 + 6 * (i.0 as usize);
    Term::from(fields_at(sheet, at))
}

pub fn entry_at(sheet: &[u8], e: EntryNumber) -> Entry
    requires { Sized sheet.now × (e.0 < count_entries (sheet_of sheet.now)) }
    ensures { entry_says result ≡ entry_at (sheet_of sheet.now) e.0 }
{
    let at = 6 + 6 * count_terms(sheet) + 6 * (e.0 as usize);
    Entry::from(fields_at(sheet, at))
}

// The record that begins at at.
pub fn fields_at(sheet: &[u8], at: usize) -> Fields
    requires { at + 6 ≤ length sheet.now }
    ensures { result ≡ fields_at sheet.now at }
{
    Fields {
        kind: sheet[at],
        symbol: sheet[at + 1],
        a: sheet[at + 2],
        b: sheet[at + 3],
        c: big::read(sheet, at + 4, 2) as u16,
    }
}
