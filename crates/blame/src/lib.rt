// The first clashing list of a clashing sheet: from the highest entry down, one is left out where the rest still clashes.
// It rests on order's theorem that this ends in the first set, and on values that are guessed or else the verdict, from scratch for each entry.
// It promises the record of that list (specs/Blamed.antt).
#![tactic(auto)]

ghost use Rattle.std.specs.Prelude.{◌≡◌, true, ℕ, ◌+◌, ◌≤◌, ◌<◌, length};
ghost use Rattle.cells.specs.Cells.{cells, Kept};
ghost use Rattle.order.specs.First.{every, marked};
ghost use Rattle.sheet.specs.Sheet.{count_entries};
ghost use Rattle.meaning.specs.Meaning.{Clashes, FirstClash};
ghost use Rattle.meaning.specs.Decides.{Decides};
ghost use Rattle.answer.specs.Record.{head_length};
ghost use Rattle.settled.specs.Settled.{points};
ghost use Rattle.blame.specs.Blamed.{Blamed};

use reading::Sheet;
use verdict::Verdict;

// Writes the first clashing list as the answer record, and answers its length. The table is the caller's to lend.
pub fn write(sheet: &Sheet, room: &mut [u8], d: &mut [u32]) -> usize
    requires clashes { Clashes sheet.now every × (head_length + count_entries sheet.now ≤ length room.old) × (length d.old ≡ cells) }
    ensures blamed { Blamed sheet.now room.old room.new result }
    ensures kept { Kept (points sheet.now) d.old d.new }
{
    let entries = sheet.count_entries();
    let mut marks = [true; sheet::MAX_ENTRIES];
    leave_out(sheet, &mut marks, d);
    listing::clashes(room, &marks, entries)
}

// With every entry marked, takes away the marks of those that aren't needed.
pub fn leave_out(sheet: &Sheet, marks: &mut [bool], d: &mut [u32])
    requires sheet_in_bounds { (count_entries sheet.now ≤ length marks.old) × (length d.old ≡ cells) }
    requires clashes { Clashes sheet.now (marked marks.old) × ((x : ℕ) → x < count_entries sheet.now → marked marks.old x ≡ true) }
    ensures first { FirstClash sheet.now (marked marks.new) }
    ensures kept { Kept (points sheet.now) d.old d.new }
{
    for r in (0..sheet.count_entries()).rev() {
        marks[r] = false;
        if !clashes(sheet, marks, d) {
            marks[r] = true;
        }
    }
}

// Whether the entries that the set marks clash. Values that meet them are quicker to find than the table is made.
fn clashes(sheet: &Sheet, set: &[bool], d: &mut [u32]) -> bool
    requires sheet_in_bounds { (count_entries sheet.now ≤ length set.now) × (length d.old ≡ cells) }
    ensures decides { Decides (Clashes sheet.now (marked set.now)) result }
    ensures kept { Kept (points sheet.now) d.old d.new }
{
    let mut v = [0u64; guess::PLACES];
    if guess::values(sheet, set, &mut v) {
        return false;
    }
    verdict::on(sheet, set, d) == Verdict::Clashes
}
