// The terms met in a typed text, by keys: a key is a term's record as one number, and a variable's has its name.
// It rests on nothing but the memory, and promises a key's number, and that a new key goes behind those before it.
#![tactic(auto)]

ghost use Rattle.std.specs.Prelude.{◌≡◌, ◌≤◌, ◌==◌, length, position};
ghost use Rattle.sheet.specs.Limits.{max_terms};
ghost use Rattle.met.specs.Model.{read_says, memory_cells, count_in, entered};

use sheet::TermNumber;
use slips::Slip;

// A place for each key, the count of keys, and places for the entries' records.
pub const COUNT: usize = sheet::MAX_TERMS;

pub const ENTRIES: usize = COUNT + 1;

pub const MEMORY: usize = ENTRIES + sheet::MAX_ENTRIES;

// The place behind a term, and its number; or what is wrong.
pub type Read = Result<(usize, TermNumber), Slip>;

// The term of this key, which ends before e: it has a number or gets the next.
pub fn enter(m: &mut [usize; MEMORY], key: usize, e: usize) -> Read
    requires { (1 ≤ e) × (length m.old ≡ memory_cells) × (count_in m.old ≤ max_terms) }
    ensures answer { read_says result ≡ (entered m.old key e).outcome }
    ensures memory { m.new ≡ (entered m.old key e).memory }
{
    let count = m[COUNT];
    if let Some(j) = find(&m[..count], key) {
        return Ok((e, TermNumber(j as u8)));
    }
    if sheet::MAX_TERMS <= count {
        return Err(Slip::Full(e - 1));
    }
    m[count] = key;
    m[COUNT] = count + 1;
    Ok((e, TermNumber(count as u8)))
}

// The place of a key among those met.
fn find(keys: &[usize], key: usize) -> Option<usize>
    ensures { result ≡ position (λ k. k == key) keys.now }
{
    keys.iter().position(|k| *k == key)
}
