// Whether terms that have one input are level, by the keys of their inputs: each is compared with those before it on the same shelf.
// It rests on no more than the keys' being numbers, and promises that a term's row is refused exactly where a term before it has both its
// keys and another level.
#![tactic(auto)]

ghost use Rattle.std.specs.Prelude.{◌≡◌, ◌+◌, ◌<◌, length};
ghost use Rattle.sheet.specs.Limits.{max_terms};
ghost use Rattle.meaning.specs.Decides.{Decides};
ghost use Rattle.shelves.specs.Rows.{key_count, stored, Alike, RowAgrees, shelf_count, shelf_of, Shelved};

// Places for the terms' first keys, and behind them for their second.
pub const KEYS: usize = 2 * sheet::MAX_TERMS;

// How many shelves the first keys are spread over: so many that most stay empty.
pub const SHELVES: usize = 4 * sheet::MAX_TERMS;

// Stores the keys of term i, and answers whether it has the level of each term before it that has its input. An empty shelf says that
// none has, and spares the comparisons. A term without an input has 0 as its first key, and is compared with none.
// The contract has the lengths of the lent arrays, since a proof doesn't see that of an array behind a reference.
pub fn row(
    keys: &mut [u64; KEYS],
    shelves: &mut [bool; SHELVES],
    v: &[u64],
    first: u64,
    second: u64,
    level: u64,
    i: usize,
) -> bool
    requires { (i < max_terms) × (i < length v.now) × (length keys.old ≡ key_count) × (length shelves.old ≡ shelf_count) × Shelved keys.old shelves.old i }
    ensures agrees { Decides (RowAgrees keys.new v.now first second level i) result }
    ensures stored { keys.new ≡ stored keys.old i first second }
    ensures shelved { (length shelves.new ≡ shelf_count) × Shelved keys.new shelves.new (i + 1) }
{
    keys[i] = first;
    keys[sheet::MAX_TERMS + i] = second;
    let shelf = shelf_of(first);
    if shelves[shelf] & (first != 0) {
        compare(keys, v, first, second, level, i)
    } else {
        shelves[shelf] = true;
        true
    }
}

// Adds up both parts of a key, the height and the symbol, so that terms that differ in either are spread.
pub fn shelf_of(key: u64) -> usize
    ensures { (result ≡ shelf_of key) × (result < shelf_count) }
{
    (key / 512 + key % 512) as usize % SHELVES
}

// The same, term by term. No test jumps, so that several terms can be compared at once.
fn compare(keys: &[u64; KEYS], v: &[u64], first: u64, second: u64, level: u64, k: usize) -> bool
    requires { (k < max_terms) × (k < length v.now) }
    ensures { Decides (Alike keys.now v.now first second level k) result }
{
    let mut alike = true;
    for j in 0..k {
        alike &= (keys[j] != first) | (keys[sheet::MAX_TERMS + j] != second) | (v[j] == level);
    }
    alike
}
