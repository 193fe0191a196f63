// What is wrong with a sheet, row by row of the refusal table: its length, its shape, a term, an entry; tests that equal the table's rows.
// It rests on the grounds for refusal and on sheet's fields. Which place is given is lowest's, and which row is looked at first is refusal's.
#![tactic(auto)]

ghost use Rattle.std.specs.Prelude.{◌≡◌, ◌≤◌, length};
ghost use Rattle.grounds.specs.Rows.{wrong_length, wrong_shape, wrong_term, wrong_entry};

use sheet::{Fields, TermNumber};

// Fewer bytes than a sheet has at least, or a stated length that isn't theirs.
pub fn wrong_length(sheet: &[u8]) -> bool
    ensures { result ≡ wrong_length sheet.now }
{
    if sheet.len() < 6 {
        return true;
    }
    big::read(sheet, 0, 2) != sheet.len() as u64
}

// A count out of its limits, a byte 5 that isn't 0, or a length that the counts don't give.
pub fn wrong_shape(sheet: &[u8]) -> bool
    requires { 6 ≤ length sheet.now }
    ensures { result ≡ wrong_shape sheet.now }
{
    let terms = sheet[3] as usize;
    let entries = sheet[4] as usize;
    (terms == 0)
        | (sheet::MAX_TERMS < terms)
        | (sheet::MAX_ENTRIES < entries)
        | (sheet[5] != 0)
        | (sheet.len() != 6 + 6 * terms + 6 * entries)
}

// Of each kind, a non-zero unused field or an argument not below the term's own number; or a kind over 4.
pub fn wrong_term(i: TermNumber, f: Fields) -> bool
    ensures { result ≡ wrong_term i.0 f }
{
    let own = i.0;
    let kind = f.kind;
    match kind {
        0 => (f.symbol != 0) | (f.a != 0) | (f.b != 0) | (f.c != 0),
        1 => (f.symbol != 0) | (f.a != 0) | (f.b != 0),
        2 => (f.symbol != 0) | (f.b != 0) | (own <= f.a),
        3 => (f.b != 0) | (f.c != 0) | (own <= f.a),
        4 => (f.c != 0) | (own <= f.a) | (own <= f.b),
        _ => true,
    }
}

// A kind over 3, a non-zero second byte, or a or b not below T.
pub fn wrong_entry(terms: u8, f: Fields) -> bool
    ensures { result ≡ wrong_entry terms f }
{
    (3 < f.kind) | (f.symbol != 0) | (terms <= f.a) | (terms <= f.b)
}
