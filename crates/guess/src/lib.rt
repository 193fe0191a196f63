// Values that likely meet a sheet: levels start apart, and are lowered by the search until none has to fall.
// It rests on search, and on meets, which checks them: nothing that the search does is trusted, and where it gives up nothing is said.
// It promises that values it answers with meet the sheet on the set of entries, within the answer's limits.
#![tactic(auto)]

ghost use Rattle.std.specs.Prelude.{◌≡◌, true, ℕ, ◌^◌, ◌≤◌, ◌<◌, length, get_or};
ghost use Rattle.order.specs.First.{marked};
ghost use Rattle.sheet.specs.Sheet.{count_entries};
ghost use Rattle.meets.specs.Met.{Met};
ghost use Rattle.notes.specs.Limits.{places, denominator};
ghost use Rattle.notes.specs.Search.{Worked};

use notes::MEMORY;
use reading::Sheet;

// The denominator, and places for levels.
pub const D: u64 = notes::D as u64;

pub const PLACES: usize = notes::PLACES;

// Leaves levels in v, and answers true where they meet the sheet on the set of entries.
pub fn values(sheet: &Sheet, set: &[bool], v: &mut [u64; PLACES]) -> bool
    requires sheet_in_bounds { count_entries sheet.now ≤ length set.now }
    ensures met { result ≡ true → Met sheet.now (marked set.now) denominator v.new }
    ensures worked { Worked v.old v.new }
{
    let n = sheet.count_terms() + 1;
    let mut m = [0usize; MEMORY];
    start(&mut m, n);
    if !search::search(&mut m, n, sheet, set) {
        return false;
    }
    take(&m, v, n);
    meets::check(sheet, set, D, v)
}

// Levels apart from each other by a number prime to D, and far from both ends of their range.
fn start(m: &mut [usize; MEMORY], n: usize)
    requires { n ≤ places }
    ensures { Worked m.old m.new }
{
    for (i, level) in m[..n].iter_mut().enumerate() {
        *level = 1099511627776 + 1009 * i;
    }
}

// Takes the first n levels out; one that ran off comes back into the range that meets asks for.
fn take(m: &[usize; MEMORY], v: &mut [u64; PLACES], n: usize)
    requires { n ≤ places }
    ensures range { (i : ℕ) → i < n → get_or v.new i 0 < 2 ^ 44 }
    ensures worked { Worked v.old v.new }
{
    for i in 0..n {
        v[i] = (m[i] % notes::TOP) as u64;
    }
}
