// The lines of a typed text: a term, a relation and a term, up to the newline, and all of them to the text's end.
// It rests on the terms' readers, and promises the first slip of a text, or that the memory holds its terms and entries
// (specs/Reading.antt).
#![tactic(auto)]

ghost use Rattle.std.specs.Prelude.{◌≡◌, ◌<◌, []};
ghost use Rattle.sheet.specs.Limits.{max_entries};
ghost use Rattle.terms.specs.Model.{Held};
ghost use Rattle.lines.specs.Model.{relation_read, relation_at, begins_line, line_at, FoundAs};
ghost use Rattle.lines.specs.Reading.{Holds, TextTold};

use met::MEMORY;
use sheet::Relation;
use slips::{Found, Slip};

// Brackets go no deeper than this.
pub const DEPTH: usize = 16;

// The relation at i: the place behind it, and which it is.
#[tactic(auto, unfolding(crate::specs::Model::relation_at))]
fn relation(s: &[u8], i: usize) -> Result<(usize, Relation), Slip>
    ensures { relation_read result ≡ relation_at s.now i }
{
    match numeral::byte_at(s, i) {
        b'=' => Ok((i + 1, Relation::Equal)),
        b'!' => {
            let j = i + 1;
            if numeral::byte_at(s, j) == b'=' {
                Ok((j + 1, Relation::Unequal))
            } else {
                Err(Slip::Form(j))
            }
        }
        b'<' => {
            let j = i + 1;
            if numeral::byte_at(s, j) == b'=' {
                Ok((j + 1, Relation::AtMost))
            } else {
                Ok((j, Relation::Less))
            }
        }
        _ => Err(Slip::Form(i)),
    }
}

// The line at i, which is entry l: its record goes to the memory. Answers the next line's place and number.
fn line(s: &[u8], i: usize, m: &mut [usize; MEMORY], l: usize) -> Found
    requires { Held m.old × (l < max_entries) }
    ensures { FoundAs result m.new (line_at s.now i m.old l) }
{
    let (e, a) = terms::term(s, i, m, DEPTH)?;
    let (g, kind) = relation(s, e)?;
    let (h, b) = terms::term(s, g, m, DEPTH)?;
    if numeral::byte_at(s, h) != b'\n' {
        return Err(Slip::Form(h));
    }
    m[met::ENTRIES + l] = kind as usize * terms::KIND
        + a.0 as usize * terms::A
        + b.0 as usize * terms::B;
    Ok((h + 1, l + 1))
}

// Whether a line may begin with this byte.
fn begins(c: u8) -> bool
    ensures { result ≡ begins_line c }
{
    matches!(c, b'0'..=b'9' | b'-' | b'f' | b'x')
}

// The whole text, line by line. What is behind the last line that a sheet has room for is one too many, or begins none.
pub fn text(s: &[u8], m: &mut [usize; MEMORY]) -> Found
    requires { Holds [] m.old }
    ensures { TextTold s.now m.new result }
{
    let mut i = 0;
    let mut l = 0;
    // A while: how far a line goes isn't known before it is read.
    while i < s.len() {
        if l == sheet::MAX_ENTRIES {
            if begins(numeral::byte_at(s, i)) {
                return Err(Slip::Full(i));
            }
            return Err(Slip::Form(i));
        }
        (i, l) = line(s, i, m, l)?;
    }
    if l == 0 {
        return Err(Slip::Form(0));
    }
    Ok((i, l))
}
