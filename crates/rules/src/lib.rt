// Whether a term's own rule and an entry are true of levels. It rests on the sheet's terms and entries, and on what keys says of levels.
// A level and a c held biased are natural numbers, so no test has a sign.
// It promises yes exactly where the meaning of the values that the levels stand for says so.
#![tactic(auto)]

ghost use Rattle.std.specs.Prelude.{◌+◌, ◌*◌, ◌^◌, ◌≤◌, ◌<◌, get_or};
ghost use Rattle.std.proofs.Math.IntN.{sub_ℕ};
ghost use Rattle.sheet.specs.Says.{term_says, entry_says, relation_says};
ghost use Rattle.sheet.specs.Sheet.{ArgumentsBelow};
ghost use Rattle.meaning.specs.Meaning.{Defined, EntryTrue};
ghost use Rattle.meaning.specs.Decides.{Decides};
ghost use Rattle.answer.specs.Levels.{value_at};
ghost use Rattle.keys.specs.Ready.{Ready};
ghost use Rattle.rules.specs.Related.{Related};

use sheet::{Biased, Entry, Relation, Term};

// Whether a term with this level, if it is a number or a shift, has the value that it has to have.
pub fn defined(v: &[u64], t: usize, d: u64, level: u64, x: Term) -> bool
    requires { Ready v.now t × (d ≤ 65535) × (level < 2 ^ 63) × ArgumentsBelow t (term_says x) }
    ensures { Decides (Defined d (value_at v.now t) (sub_ℕ level (get_or v.now t 0)) (term_says x)) result }
{
    match x {
        Term::Number(c) => related(level, Relation::Equal, v[t], c, d),
        Term::Shift(a, c) => related(level, Relation::Equal, v[a.0 as usize], c, d),
        _ => true,
    }
}

pub fn entry_true(v: &[u64], t: usize, d: u64, e: Entry) -> bool
    requires { Ready v.now t × (d ≤ 65535) × (e.a.0 < t) × (e.b.0 < t) }
    ensures { Decides (EntryTrue d (value_at v.now t) (entry_says e)) result }
{
    let a = e.a.0 as usize;
    let b = e.b.0 as usize;
    related(v[a], e.relation, v[b], e.c, d)
}

// The two sides of an entry in whole numbers, each moved by the 32,768 d by which c is held biased.
fn related(x: u64, relation: Relation, y: u64, c: Biased, d: u64) -> bool
    requires { (x < 2 ^ 63) × (y < 2 ^ 63) × (d ≤ 65535) }
    ensures { Decides (Related (x + 32768 * d) (relation_says relation) (y + c.0 * d)) result }
{
    let left = x + 32768 * d;
    let right = y + (c.0 as u64) * d;
    match relation {
        Relation::Equal => left == right,
        Relation::Unequal => left != right,
        Relation::AtMost => left <= right,
        Relation::Less => left < right,
    }
}
