// The values of a sheet's terms, read off a closed table: one formula (levels, specs/Level.antt) and no search.
// It rests on closed tables (closure, table) and on levels' theorem, and writes D and one n per term as the answer record.
// It promises that these meet the sheet on every set of entries for which the table is settled (settled, specs/Settled.antt; specs/Written.antt).
#![tactic(auto)]

ghost use Rattle.std.specs.Prelude.{◌≡◌, ℕ, ◌*◌, ◌≤◌, ◌<◌, length, get_or};
ghost use Rattle.kind.specs.Code.{half, none};
ghost use Rattle.closure.specs.Closed.{Closed};
ghost use Rattle.closure.specs.Table.{reach};
ghost use Rattle.levels.specs.Level.{sum_to, least_of, term_of, lowest_of, level_of};
ghost use Rattle.cells.specs.Cells.{stride, cells, cell};
ghost use Rattle.settled.specs.Settled.{points};
ghost use Rattle.values.specs.Written.{record_length, Written};

use gap::Gap;
use reading::Sheet;

// Writes D and one n per term as the answer record, and answers its length. D is n * n, where n counts the terms and the zero level.
pub fn write(sheet: &Sheet, d: &[u32], room: &mut [u8]) -> usize
    requires d_len { (length d.now ≡ cells) × (record_length sheet.now ≤ length room.old) }
    requires closed { Closed (points sheet.now) (reach (points sheet.now)) (cell d.now) }
    ensures length { result ≡ record_length sheet.now }
    ensures written { Written sheet.now (cell d.now) room.old room.new }
{
    let terms = sheet.count_terms();
    let n = terms + 1;
    let mut v = [0u64; table::STRIDE];
    levels(d, n, &mut v);
    writing::holds(room, (n * n) as u64, &v, terms)
}

// The levels of all n points, in parts of n * n. The lowest tied point sets untied points apart that the sums would leave equal.
fn levels(d: &[u32], n: usize, v: &mut [u64])
    requires { (length d.now ≡ cells) × (n ≤ stride) × (n ≤ length v.old) × Closed n (reach n) (cell d.now) }
    ensures { (i : ℕ) → i < n → get_or v.new i 0 ≡ level_of n (reach n) (cell d.now) i }
{
    for i in 0..n {
        // Where there is no gap: 2 R + 1 above the row's least, where R is n * 32,768.
        let other = (n as u64) * 65536 + 1 + least(d, i, n);
        v[i] = (n as u64) * total(d, i, n, other) + (lowest(d, i) as u64);
    }
}

// The lowest point that i is tied with. A gap back of more than 0 leaves each tie below NONE.
fn lowest(d: &[u32], i: usize) -> usize
    requires { (length d.now ≡ cells) × (i < stride) × ((k : ℕ) → k < i → 0 < cell d.now k i) }
    ensures { (result ≡ lowest_of (cell d.now) i) × (result ≤ i) }
{
    for k in 0..i {
        if table::tied(d, i, k) < Gap::NONE {
            return k;
        }
    }
    i
}

// The sum of row i, with another number where there is no gap.
fn total(d: &[u32], i: usize, n: usize, other: u64) -> u64
    requires { (length d.now ≡ cells) × (i < stride) × (n ≤ stride) × (other ≤ none) }
    ensures { (result ≡ sum_to n (λ s. term_of other (cell d.now i s))) × (result ≤ n * none) }
{
    let mut sum = 0;
    for s in 0..n {
        sum += term(other, cells::gap_at(d, i, s));
    }
    sum
}

// The least whole number of row i, or 0: that of the tightest gap.
fn least(d: &[u32], i: usize, n: usize) -> u64
    requires { (length d.now ≡ cells) × (i < stride) × (n ≤ stride) }
    ensures { (result ≡ least_of n (cell d.now i)) × (result ≤ half) }
{
    let mut m = Gap::ZERO;
    for s in 0..n {
        m = m.tighter(cells::gap_at(d, i, s));
    }
    term(0, m)
}

// The whole number of a gap that is there, from the bias `half` up, or another number: a difference of two loses the bias.
fn term(other: u64, g: Gap) -> u64
    requires { other ≤ none }
    ensures { (result ≡ term_of other g.0) × (result ≤ none) }
{
    if g < Gap::NONE {
        (u64::from(g.0) + 1) / 2
    } else {
        other
    }
}
