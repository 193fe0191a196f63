// The verdict on a set of a sheet's entries: all bounds in, equalities passed both ways until nothing is new, then the ≠ entries.
// It rests on the bounds, the passes and the ties, and on the values for "holds". It answers "clashes" exactly when the meaning says
// so, and else leaves a settled table, from which values can be read.
#![tactic(auto)]

ghost use Rattle.std.specs.Prelude.{◌≡◌, ◌≤◌, length};
ghost use Rattle.closure.specs.Table.{Table};
ghost use Rattle.cells.specs.Cells.{cells, cell, Kept};
ghost use Rattle.order.specs.First.{marked};
ghost use Rattle.sheet.specs.Sheet.{count_entries};
ghost use Rattle.settled.specs.Settled.{points};
ghost use Rattle.verdict.specs.Judged.{Judged};
ghost use Rattle.verdict.specs.Entered.{EnteredPut};

use reading::Sheet;
pub use writing::Verdict;

// Judges the entries that the set marks. The table is the caller's to lend, and is settled where they hold.
pub fn on(sheet: &Sheet, set: &[bool], d: &mut [u32]) -> Verdict
    requires sheet_in_bounds { (count_entries sheet.now ≤ length set.now) × (length d.old ≡ cells) }
    ensures judged { Judged sheet.now (marked set.now) (cell d.new) result }
    ensures kept { Kept (points sheet.now) d.old d.new }
{
    table::start(d, sheet.count_terms() + 1);
    if !bounds::put_terms(sheet, d) {
        return Verdict::Clashes;
    }
    if finish(sheet, set, d) {
        Verdict::Holds
    } else {
        Verdict::Clashes
    }
}

// With all terms in: puts the entries in, passes equalities on, then looks at the ≠ entries.
fn finish(sheet: &Sheet, set: &[bool], d: &mut [u32]) -> bool
    requires sheet_in_bounds { count_entries sheet.now ≤ length set.now }
    requires d_len { (length d.old ≡ cells) × Table (points sheet.now) (cell d.old) }
    ensures { EnteredPut sheet.now (marked set.now) d.old d.new result }
{
    sheet.formed();
    if !bounds::put_entries(sheet, set, d) {
        return false;
    }
    passes::settle(sheet, d) && ties::apart(sheet, set, d)
}
