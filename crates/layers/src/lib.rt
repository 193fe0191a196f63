// The least walk over a list of bounds, from a point to a point: best totals by number of bounds, in layers, then read off.
// It rests on the gap kind and on walks of few bounds, and promises one with fewer bounds than points, than which no such walk is tighter.
#![tactic(auto)]

ghost use Rattle.std.specs.Prelude.{◌≡◌, ℕ, ◌+◌, ◌≤◌, ◌<◌, length};
ghost use Rattle.kind.specs.Code.{none, sum_of, Addable};
ghost use Rattle.cells.specs.Cells.{stride, cells, cell, Kept};
ghost use Rattle.layers.specs.Bounds.{bounds, to_at, code_at, Sound, Reachable, Least};
ghost use Rattle.layers.specs.Layer.{Over, Chosen, Begun, Copied, RowOver, Layers, Read};

use cells::STRIDE;
use gap::Gap;

// A bound: level `from` is at most level `to` plus the gap.
#[derive(Clone, Copy)]
pub struct Bound {
    pub from: u8,
    pub to: u8,
    pub gap: Gap,
}

impl Bound {
    // What stands in a list where no bound is put yet.
    pub const NOWHERE: Bound = Bound {
        from: 0,
        to: 0,
        gap: Gap(0),
    };
}

// Writes the least of the walks from a to b with fewer than n bounds, n being the number of points, and answers its number of bounds.
// The best totals take room as a table does, a row for each number of bounds; what its first n cells of n rows hold afterwards is free.
pub fn walk(
    list: &[Bound],
    m: usize,
    n: usize,
    a: usize,
    b: usize,
    best: &mut [u32],
    out: &mut [u16],
) -> usize
    requires sound { Sound n (bounds m list.now) }
    requires n_le_stride { (n ≤ stride) × (a < n) × (b < n) × (length best.old ≡ cells) × (n ≤ length out.old) }
    requires reachable { Reachable n (bounds m list.now) a b }
    ensures least { Least n (bounds m list.now) a b out.old out.new result }
    ensures kept { Kept n best.old best.new }
{
    let h = fill(list, m, n, b, best);
    read(list, m, n, b, best, h, a, out)
}

// The layers to b, and the number of the last.
fn fill(list: &[Bound], m: usize, n: usize, b: usize, best: &mut [u32]) -> usize
    requires sound { Sound n (bounds m list.now) }
    requires n_le_stride { (n ≤ stride) × (b < n) × (length best.old ≡ cells) }
    ensures layers { Layers (bounds m list.now) n b best.new result }
    ensures kept { Kept n best.old best.new }
{
    begin(best, n, b);
    let last = n - 1;
    for h in 0..last {
        copy(best, h, n);
        if !relax(list, m, n, best, h) {
            return h;
        }
    }
    last
}

// Row 0: no gap from any point but b.
fn begin(best: &mut [u32], n: usize, b: usize)
    requires { (n ≤ stride) × (b < n) × (length best.old ≡ cells) }
    ensures begun { Begun n b best.new }
    ensures kept { Kept n best.old best.new }
{
    best[..n].fill(Gap::NONE.0);
    best[b] = Gap::ZERO.0;
}

// Row h in row h + 1 too.
fn copy(best: &mut [u32], h: usize, n: usize)
    requires { (h + 1 < n) × (n ≤ stride) × (length best.old ≡ cells) }
    ensures copied { Copied n best.old best.new h }
    ensures kept { Kept n best.old best.new }
{
    let at = h * STRIDE;
    // One by one: by copy_within, or over two slices, the archive for C needs memmove.
    for i in 0..n {
        best[at + STRIDE + i] = best[at + i];
    }
}

// Each bound in front of row h, where that makes row h + 1 better; whether any does.
fn relax(list: &[Bound], m: usize, n: usize, best: &mut [u32], h: usize) -> bool
    requires sound { Sound n (bounds m list.now) }
    requires h_bound { (h + 1 < n) × (n ≤ stride) × (length best.old ≡ cells) }
    requires by_index { (i : ℕ) → i < n → cell best.old (h + 1) i ≡ cell best.old h i }
    requires by_index_2 { (e : ℕ) → e < m → Addable (code_at list.now e) (cell best.old h (to_at list.now e)) }
    ensures row { RowOver (bounds m list.now) m n best.old best.new h result }
    ensures kept { Kept n best.old best.new }
{
    let at = h * STRIDE;
    let mut changed = false;
    for bound in &list[..m] {
        let total = via(*bound, best, h);
        let i = at + STRIDE + usize::from(bound.from);
        if total < Gap(best[i]) {
            best[i] = total.0;
            changed = true;
        }
    }
    changed
}

// The total of a bound with row h behind it.
fn via(bound: Bound, best: &[u32], h: usize) -> Gap
    requires h_lt_stride { (h < stride) × (bound.to < stride) × (length best.now ≡ cells) }
    requires addable { Addable bound.gap.0 (cell best.now h bound.to) }
    ensures { result.0 ≡ sum_of bound.gap.0 (cell best.now h bound.to) }
{
    let behind = best[h * STRIDE + usize::from(bound.to)];
    bound.gap.sum(Gap(behind))
}

// Reads a walk off from layer h down, and answers its number of bounds.
fn read(
    list: &[Bound],
    m: usize,
    n: usize,
    b: usize,
    best: &[u32],
    last: usize,
    a: usize,
    out: &mut [u16],
) -> usize
    requires sound { Sound n (bounds m list.now) }
    requires n_le_stride { (n ≤ stride) × (a < n) × (b < n) × (length best.now ≡ cells) × (n ≤ length out.old) }
    requires layers { Layers (bounds m list.now) n b best.now last × (cell best.now last a < none) }
    ensures { Read (bounds m list.now) a b best.now last out.old out.new result }
{
    let mut i = a;
    let mut k = 0;
    for h in (0..last).rev() {
        let total = Gap(best[h * STRIDE + STRIDE + i]);
        if total < Gap(best[h * STRIDE + i]) {
            let e = find(list, m, n, best, h, i, total);
            out[k] = e as u16;
            k += 1;
            i = usize::from(list[e].to);
        }
    }
    k
}

// A bound from i that comes to this total with row h behind it.
fn find(list: &[Bound], m: usize, n: usize, best: &[u32], h: usize, i: usize, total: Gap) -> usize
    requires sound { Sound n (bounds m list.now) }
    requires h_lt_stride { (h < stride) × (n ≤ stride) × (length best.now ≡ cells) }
    requires by_index { (e : ℕ) → e < m → Addable (code_at list.now e) (cell best.now h (to_at list.now e)) }
    requires over { Over (bounds m list.now) m (cell best.now h) i total.0 }
    ensures { Chosen (bounds m list.now) (cell best.now h) i total.0 result }
{
    for e in 0..m {
        if usize::from(list[e].from) == i && via(list[e], best, h) == total {
            return e;
        }
    }
    unreachable!()
}
