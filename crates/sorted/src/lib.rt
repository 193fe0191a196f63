// Numbers kept in ascending order: one put in, and those from a least one on found.
// It rests on the order of numbers alone, and promises where the new one stands and where each of the others does.
#![tactic(auto)]

ghost use Rattle.std.specs.Prelude.{◌≤◌, ◌<◌, length};
ghost use Rattle.sorted.specs.Inserted.{Ascending, Inserted, FirstFrom};

// Puts a key in among the first m, and answers its place. The others move up from the end, so that a key above them all costs one test.
pub fn insert(keys: &mut [u64], m: usize, key: u64) -> usize
    requires { (m < length keys.old) × Ascending m keys.old }
    ensures { Inserted m keys.old keys.new key result }
{
    for below in (0..m).rev() {
        if keys[below] < key {
            keys[below + 1] = key;
            return below + 1;
        }
        keys[below + 1] = keys[below];
    }
    keys[0] = key;
    0
}

// The first place from which no key is below least, m where there is none. The keys that aren't stand last, so it looks from the end.
pub fn first_from(keys: &[u64], m: usize, least: u64) -> usize
    requires { (m ≤ length keys.now) × Ascending m keys.now }
    ensures { FirstFrom m keys.now least result }
{
    for last in (0..m).rev() {
        if keys[last] < least {
            return last + 1;
        }
    }
    0
}
