// What a closed table says of two points and of a sheet's ≠ entries: tied at c, an entry broken.
// It rests on the table's look-up and the sheet's readers, and each test says what both of its answers show.
#![tactic(auto)]

ghost use Rattle.std.specs.Prelude.{◌≡◌, ◌≤◌, ◌<◌, length};
ghost use Rattle.closure.specs.Closed.{Closed, TiedAt};
ghost use Rattle.closure.specs.Table.{reach};
ghost use Rattle.cells.specs.Cells.{stride, cells, cell};
ghost use Rattle.order.specs.First.{marked};
ghost use Rattle.sheet.specs.Says.{biased_says};
ghost use Rattle.sheet.specs.Sheet.{count_entries};
ghost use Rattle.meaning.specs.Decides.{Decides};
ghost use Rattle.settled.specs.Settled.{points};
ghost use Rattle.ties.specs.Ties.{BrokenAt, Checked};

use gap::Gap;
use reading::Sheet;
use sheet::{Biased, EntryNumber, Relation};

// Whether a = b + c is in the table.
pub fn tied_at(d: &[u32], n: usize, a: usize, b: usize, c: Biased) -> bool
    requires d_len { (length d.now ≡ cells) × (n ≤ stride) × Closed n (reach n) (cell d.now) }
    requires a_lt_n { (a < n) × (b < n) }
    ensures { Decides (TiedAt (cell d.now) a b (biased_says c)) result }
{
    table::tied(d, a, b) == Gap::whole(c.0 as u32, 32768)
}

// Whether no ≠ entry of the set is on terms tied at exactly its c.
pub fn apart(sheet: &Sheet, set: &[bool], d: &[u32]) -> bool
    requires sheet_in_bounds { (count_entries sheet.now ≤ length set.now) × (length d.now ≡ cells) }
    requires closed { Closed (points sheet.now) (reach (points sheet.now)) (cell d.now) }
    ensures { Checked sheet.now (marked set.now) (cell d.now) result }
{
    for e in 0..sheet.count_entries() {
        if broken_at(sheet, set, d, EntryNumber(e as u8)) {
            return false;
        }
    }
    true
}

// Whether entry e is in the set, and a ≠ entry on terms tied at exactly its c.
pub fn broken_at(sheet: &Sheet, set: &[bool], d: &[u32], e: EntryNumber) -> bool
    requires e_bound { (e.0 < count_entries sheet.now) × (e.0 < length set.now) × (length d.now ≡ cells) }
    requires closed { Closed (points sheet.now) (reach (points sheet.now)) (cell d.now) }
    ensures { Decides (BrokenAt sheet.now (marked set.now) (cell d.now) e.0) result }
{
    if !set[e.0 as usize] {
        return false;
    }
    let n = sheet.count_terms() + 1;
    let entry = sheet.entry_at(e);
    match entry.relation {
        Relation::Unequal => tied_at(d, n, entry.a.0 as usize, entry.b.0 as usize, entry.c),
        _ => false,
    }
}
