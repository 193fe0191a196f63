// Groups of points as labels, a row for each tie and one more: the first row has each point by itself, and each tie makes the next row.
// It rests on the rules for reasons and promises rows of labels, and the ties on the path between two points of a group, marked by a walk
// over earlier ties: the number of the tie falls.
#![tactic(auto)]

ghost use Rattle.std.specs.Prelude.{◌≡◌, ◌+◌, ◌≤◌, ◌<◌, eqb, length};
ghost use Rattle.cells.specs.Cells.{stride, cells, cell};
ghost use Rattle.forest.specs.Labels.{Labelled, Begun, Joined, Joining, PathMarked};

use cells::STRIDE;

// The first row: each of n points is a group of its own.
pub fn start(labels: &mut [u8], n: usize)
    requires { (length labels.old ≡ cells) × (n ≤ stride) }
    ensures { Begun n labels.old labels.new }
{
    for (i, label) in labels[..n].iter_mut().enumerate() {
        *label = i as u8;
    }
}

// Whether the first t ties have i and j in one group.
pub fn together(labels: &[u8], t: usize, i: usize, j: usize) -> bool
    requires { (length labels.now ≡ cells) × (t < stride) × (i < stride) × (j < stride) }
    ensures { result ≡ eqb (cell labels.now t i) (cell labels.now t j) }
{
    labels[t * STRIDE + i] == labels[t * STRIDE + j]
}

// Row t + 1: the group of b joined to that of a.
pub fn join(labels: &mut [u8], n: usize, t: usize, a: usize, b: usize)
    requires { (length labels.old ≡ cells) × (n ≤ stride) × (t + 1 < stride) × (a < n) × (b < n) }
    ensures { Joined n t a b labels.old labels.new }
{
    let row = t * STRIDE;
    let to = labels[row + a];
    let from = labels[row + b];
    for i in 0..n {
        let own = labels[row + i];
        labels[row + STRIDE + i] = if own == from { to } else { own };
    }
}

// Marks the ties on the path between i and j, which the first t ties have in one group.
pub fn mark(labels: &[u8], ties: &[u32], need: &mut [bool], n: usize, t: usize, i: usize, j: usize)
    requires labels_len { (length labels.now ≡ cells) × (n ≤ stride) × (t < n) × (t ≤ length ties.now) × (t ≤ length need.old) × (i < n) × (j < n) }
    requires labelled { Labelled n ties.now labels.now t × (cell labels.now t i ≡ cell labels.now t j) }
    ensures { PathMarked ties.now t i j need.old need.new }
{
    if i == j {
        return;
    }
    let last = joining(labels, n, t, i, j);
    need[last] = true;
    let a = sketch::left(ties[last]);
    let b = sketch::right(ties[last]);
    if together(labels, last, i, a) {
        mark(labels, ties, need, n, last, i, a);
        mark(labels, ties, need, n, last, b, j);
    } else {
        mark(labels, ties, need, n, last, i, b);
        mark(labels, ties, need, n, last, a, j);
    }
}

// The tie that joined the groups of two points.
fn joining(labels: &[u8], n: usize, t: usize, i: usize, j: usize) -> usize
    requires labels_len { (length labels.now ≡ cells) × (n ≤ stride) × (t < n) × (i < n) × (j < n) }
    requires i_value { (cell labels.now t i ≡ cell labels.now t j) × (cell labels.now 0 i ≡ cell labels.now 0 j → ⊥) }
    ensures { Joining labels.now t i j result }
{
    for u in (0..t).rev() {
        if !together(labels, u, i, j) {
            return u;
        }
    }
    unreachable!()
}
