// The ties of a reason, laid one behind the other: each tie of functions that is listed, and before it ties by walks of its arguments where
// they are in different groups.
// It rests on the ties that a table was grown by (grown) and on groups (forest), and promises what each tie comes from.
#![tactic(auto)]

ghost use Rattle.std.specs.Prelude.{◌≡◌, ◌+◌, ◌≤◌, ◌<◌, length};
ghost use Rattle.cells.specs.Cells.{stride, cells};
ghost use Rattle.sheet.specs.Sheet.{count_terms};
ghost use Rattle.settled.specs.Settled.{points};
ghost use Rattle.forest.specs.Labels.{Labelled};
ghost use Rattle.jotted.specs.Jotted.{most};
ghost use Rattle.grown.specs.Grown.{FunctionTies};
ghost use Rattle.laid.specs.Laid.{Laid};
ghost use Rattle.laid.specs.Longer.{Pushed, TiedUp, Alike, ArgumentsTied};

use layers::Bound;
use reading::Sheet;
use sheet::{Term, TermNumber};
use sketch::{BACK, TIE};

// Lays the ties of the functions that are listed from bound m on, and names these bounds by their ties' numbers; how many ties there are.
pub fn lay(
    sheet: &Sheet,
    list: &[Bound],
    names: &mut [u16],
    m: usize,
    listed: usize,
    ties: &mut [u32],
    labels: &mut [u8],
) -> usize
    requires names_len { (length names.old ≡ most) × (length ties.old ≡ stride) × (length labels.old ≡ cells) × (listed ≤ most) }
    requires function_ties { FunctionTies sheet.now list.now m listed }
    ensures { Laid sheet.now list.now names.old names.new ties.new labels.new m listed result }
{
    let n = sheet.count_terms() + 1;
    forest::start(labels, n);
    let mut t = 0;
    for e in (m..listed).step_by(2) {
        let i = usize::from(list[e].from);
        let j = usize::from(list[e].to);
        t = arguments(sheet, ties, labels, n, t, i, j, e);
        names[e] = TIE + t as u16;
        names[e + 1] = TIE + BACK + t as u16;
        t = push(ties, labels, n, t, i, j, 0);
    }
    t
}

// Ties the arguments of i and j by walks over the first e bounds, where they are in different groups.
fn arguments(
    sheet: &Sheet,
    ties: &mut [u32],
    labels: &mut [u8],
    n: usize,
    t: usize,
    i: usize,
    j: usize,
    e: usize,
) -> usize
    requires all_points { n ≡ points sheet.now }
    requires i_bound { (i < count_terms sheet.now) × (j < count_terms sheet.now) × Alike sheet.now i j }
    requires ties_len { (length ties.old ≡ stride) × (length labels.old ≡ cells) × (e < most) × Labelled n ties.old labels.old t }
    ensures { ArgumentsTied sheet.now n i j e t ties.old labels.old ties.new labels.new result }
{
    sheet.formed();
    let own = sheet.term_at(TermNumber(i as u8));
    let other = sheet.term_at(TermNumber(j as u8));
    match (own, other) {
        (Term::Apply(_, a), Term::Apply(_, b)) => {
            tie_up(ties, labels, n, t, a.0 as usize, b.0 as usize, e)
        }
        (Term::Apply2(_, a, c), Term::Apply2(_, b, d)) => {
            let u = tie_up(ties, labels, n, t, a.0 as usize, b.0 as usize, e);
            tie_up(ties, labels, n, u, c.0 as usize, d.0 as usize, e)
        }
        // Terms with the same input are applications, to one argument both or to two.
        _ => unreachable!(),
    }
}

// Ties a and b by walks over the first e bounds, where they are in different groups.
fn tie_up(
    ties: &mut [u32],
    labels: &mut [u8],
    n: usize,
    t: usize,
    a: usize,
    b: usize,
    e: usize,
) -> usize
    requires ties_len { (length ties.old ≡ stride) × (length labels.old ≡ cells) × (n ≤ stride) × (e < most) × (a < n) × (b < n) }
    requires labelled { Labelled n ties.old labels.old t }
    ensures { TiedUp n e t a b ties.old labels.old ties.new labels.new result }
{
    if forest::together(labels, t, a, b) {
        return t;
    }
    push(ties, labels, n, t, a, b, e + 1)
}

// One tie more, and the groups that it joins.
fn push(
    ties: &mut [u32],
    labels: &mut [u8],
    n: usize,
    t: usize,
    a: usize,
    b: usize,
    how: usize,
) -> usize
    requires ties_len { (length ties.old ≡ stride) × (length labels.old ≡ cells) × (n ≤ stride) × (t + 1 < stride) }
    requires a_lt_n { (a < n) × (b < n) × (how ≤ most) }
    ensures { Pushed n t a b how ties.old labels.old ties.new labels.new result }
{
    ties[t] = (a + 256 * b + 65536 * how) as u32;
    forest::join(labels, n, t, a, b);
    t + 1
}
