// Whether D and values, given as levels, meet a sheet on a set of its entries: document 01's rules, tested one by one.
// It rests on keys, for terms that have one input, and on rules, for a term and an entry by itself.
// It promises yes exactly where they meet it within the answer's limits, and reads each term and each entry once.
#![tactic(auto)]

ghost use Rattle.std.specs.Prelude.{◌≡◌, ℕ, ◌+◌, ◌^◌, ◌≤◌, ◌<◌, length, get_or};
ghost use Rattle.order.specs.First.{marked};
ghost use Rattle.sheet.specs.Sheet.{count_terms, count_entries};
ghost use Rattle.meaning.specs.Decides.{Decides};
ghost use Rattle.keys.specs.Ready.{Near, Ready};
ghost use Rattle.meets.specs.Met.{Met};
ghost use Rattle.meets.specs.Parts.{TermsMet, EntriesMet};

use reading::Sheet;
use sheet::{EntryNumber, TermNumber};

// The answer's limit on a value, 2 ^ 40.
const LIMIT: u64 = keys::LIMIT;

// Whether D and the levels' values meet the sheet on the set of entries, within the answer's limits.
pub fn check(sheet: &Sheet, set: &[bool], d: u64, v: &[u64]) -> bool
    requires sheet_in_bounds { (count_entries sheet.now ≤ length set.now) × (count_terms sheet.now < length v.now) }
    requires le_d { (1 ≤ d) × (d ≤ 65535) × ((i : ℕ) → i ≤ count_terms sheet.now → get_or v.now i 0 < 2 ^ 62) }
    ensures { Decides (Met sheet.now (marked set.now) d v.now) result }
{
    let t = sheet.count_terms();
    limits(v, t) && terms(sheet, d, v, t) && entries(sheet, set, d, v, t)
}

// First of all, so that no key overflows. No test jumps, so that several levels can be tested at once.
fn limits(v: &[u64], t: usize) -> bool
    requires { (t < length v.now) × ((i : ℕ) → i ≤ t → get_or v.now i 0 < 2 ^ 62) }
    ensures { Decides (Near v.now t) result }
{
    let zero = v[t];
    let mut near = true;
    for &x in &v[..t] {
        near &= (x <= zero + LIMIT) & (zero <= x + LIMIT);
    }
    near
}

// Each term is read once: its keys, those before it that have the same, and its own rule.
fn terms(sheet: &Sheet, d: u64, v: &[u64], t: usize) -> bool
    requires t_value { (t ≡ count_terms sheet.now) × (d ≤ 65535) × Ready v.now t }
    ensures { Decides (TermsMet sheet.now d v.now t) result }
{
    let mut keys = [0u64; shelves::KEYS];
    let mut shelves = [false; shelves::SHELVES];
    for i in 0..sheet.count_terms() {
        let x = sheet.term_at(TermNumber(i as u8));
        let level = v[i];
        let input = keys::input_of(v, t, x);
        let agrees = shelves::row(
            &mut keys,
            &mut shelves,
            v,
            input.first,
            input.second,
            level,
            i,
        );
        if !(agrees & rules::defined(v, t, d, level, x)) {
            return false;
        }
    }
    true
}

// Every entry of the set is true.
fn entries(sheet: &Sheet, set: &[bool], d: u64, v: &[u64], t: usize) -> bool
    requires sheet_in_bounds { count_entries sheet.now ≤ length set.now }
    requires t_value { (t ≡ count_terms sheet.now) × (d ≤ 65535) × Ready v.now t }
    ensures { Decides (EntriesMet sheet.now (marked set.now) d v.now (count_entries sheet.now)) result }
{
    let l = sheet.count_entries();
    for e in 0..l {
        if set[e] && !rules::entry_true(v, t, d, sheet.entry_at(EntryNumber(e as u8))) {
            return false;
        }
    }
    true
}
