// A term's bounds, and an entry's, put into a table of gaps.
// It rests on the steps and the table, and promises, for any levels: those that meet the term or the entry meet the table with it put in, and
// one that can't be put in is met by none.
#![tactic(auto)]

ghost use Rattle.std.specs.Prelude.{◌+◌, ◌≤◌, ◌<◌, ◌≡◌, length};
ghost use Rattle.closure.specs.Table.{Table};
ghost use Rattle.cells.specs.Cells.{stride, cells, cell};
ghost use Rattle.sheet.specs.Says.{term_says, entry_says};
ghost use Rattle.sheet.specs.Sheet.{ArgumentsBelow};
ghost use Rattle.meaning.specs.Meaning.{EntryTrue};
ghost use Rattle.settled.specs.Settled.{TermHeld, EntryHeld};
ghost use Rattle.steps.specs.Step.{Stepped};
ghost use Rattle.steps.specs.True.{TermTrue};

use sheet::{Entry, Relation, Term, TermNumber};

// Term i, where z is the zero level.
pub fn put_term(d: &mut [u32], z: usize, i: TermNumber, t: Term) -> bool
    requires d_len { (length d.old ≡ cells) × (z < stride) × (i.0 < z) × ArgumentsBelow i.0 (term_says t) }
    requires table { Table (z + 1) (cell d.old) }
    ensures { Stepped (z + 1) (TermTrue z i.0 (term_says t)) (λ k. TermHeld k z i.0 (term_says t)) d.old d.new result }
{
    let own = i.0 as usize;
    match t {
        Term::Number(c) => steps::put_tie(d, z + 1, own, z, c),
        Term::Shift(a, c) => steps::put_tie(d, z + 1, own, a.0 as usize, c),
        _ => true,
    }
}

// The bounds of an entry; a ≠ entry has none.
pub fn put_entry(d: &mut [u32], n: usize, e: Entry) -> bool
    requires d_len { (length d.old ≡ cells) × (n ≤ stride) × (e.a.0 < n) × (e.b.0 < n) }
    requires table { Table n (cell d.old) }
    ensures { Stepped n (λ D v. EntryTrue D v (entry_says e)) (λ k. EntryHeld k (entry_says e)) d.old d.new result }
{
    let a = e.a.0 as usize;
    let b = e.b.0 as usize;
    match e.relation {
        Relation::Equal => steps::put_tie(d, n, a, b, e.c),
        Relation::Unequal => true,
        Relation::AtMost => table::insert(d, n, a, b, steps::to(e.c)),
        Relation::Less => table::insert(d, n, a, b, steps::under(e.c)),
    }
}
