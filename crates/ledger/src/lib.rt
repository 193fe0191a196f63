// The ledger: the bounds of a sheet's numbers and shifts and of a set's entries, in a list, each with the name that it has in a reason.
// It rests on the sheet's readers and the rules for reasons, and promises that each bound is what its name says, and that none is missing.
#![tactic(auto)]

ghost use Rattle.std.specs.Prelude.{◌≡◌, ◌+◌, ◌≤◌, ◌<◌, [], ◌∷◌, length};
ghost use Rattle.kind.specs.Code.{none, Within};
ghost use Rattle.kind.specs.Kind.{kind_of};
ghost use Rattle.closure.specs.Table.{step};
ghost use Rattle.order.specs.First.{Set, marked};
ghost use Rattle.sheet.specs.Says.{biased_says, term_says, entry_says};
ghost use Rattle.sheet.specs.Sheet.{count_terms, count_entries};
ghost use Rattle.jotted.specs.Jotted.{most};
ghost use Rattle.ledger.specs.Ledger.{Ledger};
ghost use Rattle.ledger.specs.Put.{item, two_ways, of_term, of_entry, Put};

use gap::Gap;
use layers::Bound;
use reading::Sheet;
use sheet::{Biased, Entry, EntryNumber, Relation, Term, TermNumber};
use sketch::{BACK, TERM};

// Lists the bounds of all terms and of the entries that the set marks, and answers how many there are.
pub fn list(sheet: &Sheet, set: &[bool], list: &mut [Bound], names: &mut [u16]) -> usize
    requires list_len { (length list.old ≡ most) × (length names.old ≡ most) }
    requires sheet_in_bounds { count_entries sheet.now ≤ length set.now }
    ensures { Ledger sheet.now (marked set.now) list.new names.new result (count_terms sheet.now) (count_entries sheet.now) }
{
    let m = list_terms(sheet, list, names);
    list_entries(sheet, set, list, names, m)
}

fn list_terms(sheet: &Sheet, list: &mut [Bound], names: &mut [u16]) -> usize
    requires list_len { (length list.old ≡ most) × (length names.old ≡ most) }
    ensures { (S : Set) → Ledger sheet.now S list.new names.new result (count_terms sheet.now) 0 }
{
    let t = sheet.count_terms();
    let mut m = 0;
    for i in 0..t {
        let own = TermNumber(i as u8);
        m = list_term(list, names, m, t as u8, own, sheet.term_at(own));
    }
    m
}

fn list_entries(
    sheet: &Sheet,
    set: &[bool],
    list: &mut [Bound],
    names: &mut [u16],
    from: usize,
) -> usize
    requires list_len { (length list.old ≡ most) × (length names.old ≡ most) }
    requires sheet_in_bounds { count_entries sheet.now ≤ length set.now }
    requires ledger { Ledger sheet.now (marked set.now) list.old names.old from (count_terms sheet.now) 0 }
    ensures { Ledger sheet.now (marked set.now) list.new names.new result (count_terms sheet.now) (count_entries sheet.now) }
{
    let l = sheet.count_entries();
    let mut m = from;
    for e in 0..l {
        if set[e] {
            let own = EntryNumber(e as u8);
            m = list_entry(list, names, m, own, sheet.entry_at(own));
        }
    }
    m
}

// The bounds of term i, where z is the zero level.
fn list_term(
    list: &mut [Bound],
    names: &mut [u16],
    m: usize,
    z: u8,
    i: TermNumber,
    t: Term,
) -> usize
    requires { (m + 1 < length list.old) × (m + 1 < length names.old) }
    ensures { Put list.old names.old list.new names.new m (of_term z i.0 (term_says t)) result }
{
    let name = TERM + i.0 as u16;
    match t {
        Term::Number(c) => pair(list, names, m, i.0, z, c, name),
        Term::Shift(a, c) => pair(list, names, m, i.0, a.0, c, name),
        _ => m,
    }
}

// The bounds of entry e; a ≠ entry has none.
fn list_entry(
    list: &mut [Bound],
    names: &mut [u16],
    m: usize,
    e: EntryNumber,
    entry: Entry,
) -> usize
    requires { (m + 1 < length list.old) × (m + 1 < length names.old) }
    ensures { Put list.old names.old list.new names.new m (of_entry e.0 (entry_says entry)) result }
{
    let a = entry.a.0;
    let b = entry.b.0;
    let name = e.0 as u16;
    match entry.relation {
        Relation::Equal => pair(list, names, m, a, b, entry.c, name),
        Relation::Unequal => m,
        Relation::AtMost => single(list, names, m, a, b, steps::to(entry.c), name),
        Relation::Less => single(list, names, m, a, b, steps::under(entry.c), name),
    }
}

// A bound under its name.
fn single(list: &mut [Bound], names: &mut [u16], m: usize, a: u8, b: u8, g: Gap, name: u16) -> usize
    requires m_in_bounds { (m < length list.old) × (m < length names.old) }
    requires g_lt_none { (g.0 < none) × Within step g.0 }
    ensures { Put list.old names.old list.new names.new m (item a b (kind_of g.0) name ∷ []) result }
{
    jotted::one(list, m, a, b, g);
    names[m] = name;
    m + 1
}

// Both bounds of a = b + c, under the name of the one there and that of the one back.
fn pair(
    list: &mut [Bound],
    names: &mut [u16],
    m: usize,
    a: u8,
    b: u8,
    c: Biased,
    name: u16,
) -> usize
    requires m_in_bounds { (m + 1 < length list.old) × (m + 1 < length names.old) }
    requires name_bound { name < 1024 }
    ensures { Put list.old names.old list.new names.new m (two_ways a b (biased_says c) name) result }
{
    jotted::both(list, m, a, b, c);
    names[m] = name;
    names[m + 1] = name + BACK;
    m + 2
}
