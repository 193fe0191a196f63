// What a reason's ending rests on: walks are found, and the ties that they go over or that lie on a path between arguments are marked, from
// the last tie down.
// It rests on the least walk over listed bounds (layers), on paths between points (forest) and on ties as they are laid (laid), and
// promises that all that is needed is marked, and nothing else.
#![tactic(auto)]

ghost use Rattle.std.specs.Prelude.{◌≡◌, ℕ, ◌+◌, ◌*◌, ◌%◌, ◌≤◌, ◌<◌, [], ◌∷◌, length, get_or};
ghost use Rattle.cells.specs.Cells.{stride, cells, Kept};
ghost use Rattle.sheet.specs.Sheet.{count_terms, term_at};
ghost use Rattle.settled.specs.Settled.{points};
ghost use Rattle.layers.specs.Bounds.{bounds, from_at, to_at, Sound, Reachable};
ghost use Rattle.sketch.specs.Sketch.{place, ending, walks_length};
ghost use Rattle.forest.specs.Labels.{Labelled};
ghost use Rattle.laid.specs.Laid.{Laid};
ghost use Rattle.needed.specs.Needed.{Marks, Found, FoundBoth, FoundRound, Gathered};
ghost use Rattle.needed.specs.Support.{InOneGroup, Grounds, Argued, Supported};

use layers::Bound;
use reading::Sheet;
use sheet::{Term, TermNumber};
use sketch::{ENDING, PLACE, TIE};

// For an ending by bound e, which closes a walk under zero: the least walk back over the bounds before it.
pub fn round(
    list: &[Bound],
    names: &[u16],
    n: usize,
    e: usize,
    best: &mut [u32],
    need: &mut [bool],
    walks: &mut [u16],
)
    requires sound { Sound n (bounds (e + 1) list.now) × Reachable n (bounds e list.now) (to_at list.now e) (from_at list.now e) }
    requires n_le_stride { (n ≤ stride) × (length best.old ≡ cells) × (walks_length ≤ length walks.old) × (e < length names.now) }
    requires by_index { (b : ℕ) → b < e + 1 → 1024 ≤ get_or names.now b 0 → get_or names.now b 0 % 256 < length need.old }
    ensures found { FoundRound n (bounds e list.now) names.now e ending walks.old walks.new need.old need.new }
    ensures kept { Kept n best.old best.new }
{
    let from = usize::from(list[e].from);
    let to = usize::from(list[e].to);
    find(list, names, e, n, to, from, best, need, walks, ENDING);
    mark_bound(names, need, e);
}

// The least walks over the first m bounds from a to b and from b to a, at two places.
pub fn both(
    list: &[Bound],
    names: &[u16],
    m: usize,
    n: usize,
    a: usize,
    b: usize,
    best: &mut [u32],
    need: &mut [bool],
    walks: &mut [u16],
    at: usize,
)
    requires sound { Sound n (bounds m list.now) × Reachable n (bounds m list.now) a b × Reachable n (bounds m list.now) b a }
    requires n_le_stride { (n ≤ stride) × (a < n) × (b < n) × (length best.old ≡ cells) × ((at + 2) * place ≤ length walks.old) × (m ≤ length names.now) }
    requires by_index { (e : ℕ) → e < m → 1024 ≤ get_or names.now e 0 → get_or names.now e 0 % 256 < length need.old }
    ensures found { FoundBoth n (bounds m list.now) a b names.now at walks.old walks.new need.old need.new }
    ensures kept { Kept n best.old best.new }
{
    find(list, names, m, n, a, b, best, need, walks, at);
    find(list, names, m, n, b, a, best, need, walks, at + 1);
}

// All that the needed ones of the first count ties rest on, from the last down.
pub fn gather(
    sheet: &Sheet,
    list: &[Bound],
    names: &[u16],
    m: usize,
    listed: usize,
    ties: &[u32],
    labels: &[u8],
    count: usize,
    best: &mut [u32],
    need: &mut [bool],
    walks: &mut [u16],
)
    requires best_len { length best.old ≡ cells }
    requires sound { Sound (points sheet.now) (bounds listed list.now) × (listed ≤ length names.now) }
    requires ties_len { (length ties.now ≡ stride) × (length labels.now ≡ cells) × (count ≤ count_terms sheet.now) × (count ≤ length need.old) × (walks_length ≤ length walks.old) }
    requires laid { Laid sheet.now list.now names.now names.now ties.now labels.now m listed count }
    requires by_index { (e : ℕ) → e < m → get_or names.now e 0 < 1024 }
    ensures gathered { Gathered sheet.now list.now names.now ties.now count walks.old walks.new need.old need.new }
    ensures kept { Kept (points sheet.now) best.old best.new }
{
    let n = sheet.count_terms() + 1;
    for t in (0..count).rev() {
        if need[t] {
            support(
                sheet, list, names, n, ties[t], ties, labels, t, best, need, walks,
            );
        }
    }
}

// What tie t rests on.
fn support(
    sheet: &Sheet,
    list: &[Bound],
    names: &[u16],
    n: usize,
    tie: u32,
    ties: &[u32],
    labels: &[u8],
    t: usize,
    best: &mut [u32],
    need: &mut [bool],
    walks: &mut [u16],
)
    requires all_points { (n ≡ points sheet.now) × (tie ≡ get_or ties.now t 0) }
    requires ties_len { (length ties.now ≡ stride) × (length labels.now ≡ cells) × (t < count_terms sheet.now) × (t ≤ length need.old) }
    requires best_len { (length best.old ≡ cells) × (walks_length ≤ length walks.old) }
    requires grounds { Grounds sheet.now list.now names.now ties.now labels.now t }
    ensures supported { Supported sheet.now list.now names.now ties.now t walks.old walks.new need.old need.new }
    ensures kept { Kept n best.old best.new }
{
    sheet.formed();
    let a = sketch::left(tie);
    let b = sketch::right(tie);
    // By functions, or by walks over the first m bounds.
    match sketch::how(tie).checked_sub(1) {
        None => arguments(sheet, ties, labels, need, n, t, a, b),
        Some(m) => both(list, names, m, n, a, b, best, need, walks, 2 * t),
    }
}

// The paths between the arguments of two applications.
fn arguments(
    sheet: &Sheet,
    ties: &[u32],
    labels: &[u8],
    need: &mut [bool],
    n: usize,
    t: usize,
    i: usize,
    j: usize,
)
    requires all_points { (n ≡ points sheet.now) × (i < count_terms sheet.now) × (j < count_terms sheet.now) }
    requires labels_len { (length labels.now ≡ cells) × (t < n) × (t ≤ length ties.now) × (t ≤ length need.old) }
    requires labelled { Labelled n ties.now labels.now t × InOneGroup labels.now t (term_at sheet.now i) (term_at sheet.now j) }
    ensures { Argued ties.now t (term_at sheet.now i) (term_at sheet.now j) need.old need.new }
{
    sheet.formed();
    let own = sheet.term_at(TermNumber(i as u8));
    let other = sheet.term_at(TermNumber(j as u8));
    match (own, other) {
        (Term::Apply(_, a), Term::Apply(_, b)) => {
            forest::mark(labels, ties, need, n, t, a.0 as usize, b.0 as usize);
        }
        (Term::Apply2(_, a, c), Term::Apply2(_, b, d)) => {
            forest::mark(labels, ties, need, n, t, a.0 as usize, b.0 as usize);
            forest::mark(labels, ties, need, n, t, c.0 as usize, d.0 as usize);
        }
        // Terms with the same input are applications, to one argument both or to two.
        _ => unreachable!(),
    }
}

// The least walk over the first m bounds from a to b, at a place, with its ties marked.
fn find(
    list: &[Bound],
    names: &[u16],
    m: usize,
    n: usize,
    a: usize,
    b: usize,
    best: &mut [u32],
    need: &mut [bool],
    walks: &mut [u16],
    at: usize,
)
    requires sound { Sound n (bounds m list.now) × Reachable n (bounds m list.now) a b }
    requires n_le_stride { (n ≤ stride) × (a < n) × (b < n) × (length best.old ≡ cells) × ((at + 1) * place ≤ length walks.old) × (m ≤ length names.now) }
    requires by_index { (e : ℕ) → e < m → 1024 ≤ get_or names.now e 0 → get_or names.now e 0 % 256 < length need.old }
    ensures found { Found n (bounds m list.now) a b names.now at walks.old walks.new need.old need.new }
    ensures kept { Kept n best.old best.new }
{
    let head = at * PLACE;
    let mut out = [0u16; sheet::MAX_TERMS + 1];
    let k = layers::walk(list, m, n, a, b, best, &mut out);
    walks[head] = k as u16;
    for x in 0..k {
        walks[head + 1 + x] = out[x];
        mark_bound(names, need, out[x] as usize);
    }
}

// Marks the tie that a bound names, if it names one.
fn mark_bound(names: &[u16], need: &mut [bool], e: usize)
    requires { (e < length names.now) × (1024 ≤ get_or names.now e 0 → get_or names.now e 0 % 256 < length need.old) }
    ensures { Marks names.now (e ∷ []) need.old need.new }
{
    let name = names[e];
    if TIE <= name {
        need[(name % 256) as usize] = true;
    }
}
