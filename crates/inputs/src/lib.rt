// Applications of one input: where two aren't level they are tied for good, and lowered at once.
// It rests on notes' applications and bounds, and on lowering.
// It promises to stay within the memory lent to it; which are tied is free, as all that the search does.
#![tactic(auto)]

ghost use Rattle.std.specs.Prelude.{◌^◌, ◌≤◌, ◌<◌};
ghost use Rattle.sheet.specs.Limits.{max_terms};
ghost use Rattle.notes.specs.Limits.{places, memory};
ghost use Rattle.notes.specs.Search.{Worked};

use notes::{APPLICATIONS, INPUTS, MEMORY, PLACES, SHELVES, TOP};
use sheet::Biased;

// An odd number of shelves to begin at: inputs differ by multiples of powers of two.
const SPREAD: usize = PLACES - 1;

// Ties applications that have the same input now and aren't level, and answers the place behind the last bound.
pub fn pass(m: &mut [usize; MEMORY], before: usize, base: usize) -> usize
    requires { (before ≤ memory) × (base < 2 ^ 32) }
    ensures answer { result ≤ memory }
    ensures worked { Worked m.old m.new }
{
    let mut end = before;
    for k in 0..sheet::MAX_TERMS {
        let application = m[APPLICATIONS + k];
        // the memory is numbers, and no application is 0
        if application == 0 {
            return end;
        }
        end = place(m, end, base, k, application);
    }
    end
}

// Puts the k-th application on the shelf of its input, or ties it to the one that stands there.
fn place(m: &mut [usize; MEMORY], end: usize, base: usize, k: usize, application: usize) -> usize
    requires { (end ≤ memory) × (base < 2 ^ 32) × (k < max_terms) }
    ensures answer { result ≤ memory }
    ensures worked { Worked m.old m.new }
{
    let input = input_of(m, application);
    m[INPUTS + k] = input;
    let shelf = shelf_of(m, input, base);
    let there = m[shelf];
    if there < base {
        m[shelf] = base + k;
        return end;
    }
    let other = m[APPLICATIONS + there % sheet::MAX_TERMS];
    level(m, end, application % PLACES, other % PLACES)
}

// Ties points i and j for good where they aren't level, and lowers the higher at once: other inputs may rest on it.
fn level(m: &mut [usize; MEMORY], end: usize, i: usize, j: usize) -> usize
    requires { (end ≤ memory) × (i < places) × (j < places) }
    ensures answer { result ≤ memory }
    ensures worked { Worked m.old m.new }
{
    if m[i] == m[j] {
        return end;
    }
    if MEMORY < end + 2 {
        return end;
    }
    let more = notes::tie(m, end, i, j, Biased::ZERO);
    lowering::lower(m, end);
    lowering::lower(m, end + 1);
    more
}

// The shelf with an application of this input, or the free one where it belongs.
fn shelf_of(m: &[usize; MEMORY], input: usize, base: usize) -> usize
    ensures { result < memory }
{
    let mut s = input % SPREAD;
    for _ in 0..PLACES {
        let there = m[SHELVES + s];
        if (there < base) | (m[INPUTS + there % sheet::MAX_TERMS] == input) {
            return SHELVES + s;
        }
        s = (s + 1) % PLACES;
    }
    SHELVES + s
}

// Kind, symbol and the arguments' levels as one number. Two inputs may share it, which costs a guess and nothing else.
fn input_of(m: &[usize; MEMORY], application: usize) -> usize
    ensures { result < 2 ^ 58 }
{
    let a = m[application / notes::FIRST % PLACES] % TOP;
    let b = m[application / notes::SECOND % PLACES] % TOP;
    let key = application / notes::KEY % 512;
    if 256 <= key {
        return key + 512 * a;
    }
    key + 512 * a + 7919 * b
}
