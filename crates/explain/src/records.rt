// Records of a sheet and of a reason, read as far as the bytes go: past them stand zeros.
// Where one begins is a u32, so that no sum with it overflows a usize.
ghost use Rattle.std.specs.Prelude.{◌≡◌, ◌+◌, ◌*◌, ◌<◌, ◌≤◌, length, slice_index};
ghost use Rattle.big.specs.Big.{big_of};
ghost use Rattle.sheet.specs.Decode.{fields_at};

use sheet::{Entry, EntryNumber, Fields, Term, TermNumber};

pub fn byte(bytes: &[u8], at: usize) -> u8
    ensures { (at < length bytes.now → result ≡ slice_index bytes.now at) × (length bytes.now ≤ at → result ≡ 0) }
{
    bytes.get(at).copied().unwrap_or(0)
}

// A number of two bytes.
pub fn pair(bytes: &[u8], at: u32) -> u16
    ensures { at + 1 < length bytes.now → result ≡ slice_index bytes.now at * 256 + slice_index bytes.now (at + 1) }
{
    let first = at as usize;
    u16::from(byte(bytes, first)) * 256 + u16::from(byte(bytes, first + 1))
}

// c of the step that begins at `at`.
pub fn step_c(record: &[u8], at: u32) -> u64
    ensures { at + 11 ≤ length «record».now → result ≡ big_of «record».now (at + 3) 8 }
{
    let c = at as usize + 3;
    if c + 8 <= record.len() {
        big::read(record, c, 8)
    } else {
        0
    }
}

pub fn count_terms(sheet: &[u8]) -> u8
    ensures { 3 < length sheet.now → result ≡ slice_index sheet.now 3 }
{
    byte(sheet, 3)
}

pub fn term(sheet: &[u8], i: TermNumber) -> Term {
    Term::from(fields(sheet, 6 + 6 * u32::from(i.0)))
}

pub fn entry(sheet: &[u8], e: EntryNumber) -> Entry {
    Entry::from(fields(
        sheet,
        6 + 6 * u32::from(count_terms(sheet)) + 6 * u32::from(e.0),
    ))
}

fn fields(sheet: &[u8], at: u32) -> Fields
    ensures { at + 6 ≤ length sheet.now → result ≡ fields_at sheet.now at }
{
    let first = at as usize;
    if first + 6 <= sheet.len() {
        reading::fields_at(sheet, first)
    } else {
        Fields {
            kind: 0,
            symbol: 0,
            a: 0,
            b: 0,
            c: 0,
        }
    }
}
