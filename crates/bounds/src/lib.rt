// A sheet's terms, and the entries of a set, as bounds in a table of gaps: one step after the other.
// It rests on the parts and the sheet's readers, and promises of all terms and of all entries what a step promises of one.
#![tactic(auto)]

ghost use Rattle.std.specs.Prelude.{◌≤◌, ◌<◌, ◌≡◌, length};
ghost use Rattle.closure.specs.Table.{Table};
ghost use Rattle.cells.specs.Cells.{cells, cell};
ghost use Rattle.order.specs.First.{marked};
ghost use Rattle.sheet.specs.Sheet.{count_entries};
ghost use Rattle.settled.specs.Settled.{points};
ghost use Rattle.steps.specs.True.{TermsPut, MarkedPut, EntriesPut};

use reading::Sheet;
use sheet::{EntryNumber, TermNumber};

// Every term: a number is tied to the zero level, which is the last point, and a shift to its term.
pub fn put_terms(sheet: &Sheet, d: &mut [u32]) -> bool
    requires d_len { (length d.old ≡ cells) × Table (points sheet.now) (cell d.old) }
    ensures { TermsPut sheet.now d.old d.new result }
{
    let t = sheet.count_terms();
    for i in 0..t {
        let own = TermNumber(i as u8);
        if !parts::put_term(d, t, own, sheet.term_at(own)) {
            return false;
        }
    }
    true
}

// Every =, ≤ and < entry of the set.
pub fn put_entries(sheet: &Sheet, set: &[bool], d: &mut [u32]) -> bool
    requires sheet_in_bounds { count_entries sheet.now ≤ length set.now }
    requires d_len { (length d.old ≡ cells) × Table (points sheet.now) (cell d.old) }
    ensures { EntriesPut sheet.now (marked set.now) d.old d.new result }
{
    for e in 0..sheet.count_entries() {
        if !put_marked(sheet, set, d, EntryNumber(e as u8)) {
            return false;
        }
    }
    true
}

// Entry e, where the set has it.
fn put_marked(sheet: &Sheet, set: &[bool], d: &mut [u32], e: EntryNumber) -> bool
    requires e_bound { (e.0 < count_entries sheet.now) × (e.0 < length set.now) }
    requires d_len { (length d.old ≡ cells) × Table (points sheet.now) (cell d.old) }
    ensures { MarkedPut sheet.now (marked set.now) e.0 d.old d.new result }
{
    if !set[e.0 as usize] {
        return true;
    }
    parts::put_entry(d, sheet.count_terms() + 1, sheet.entry_at(e))
}
