// Sets of ties, of which a right reason has at most 128: a bit for each in two words.
// It rests on nothing, and promises of each set which ties it has.
#![tactic(auto)]

ghost use Rattle.std.specs.Prelude.{◌≡◌, false, true, not, ◌&&◌, ◌||◌, ℕ, ◌+◌, ◌*◌, ◌<◌, ◌≤◌, eqb, length};
ghost use Rattle.std.specs.Bool.{xor};
ghost use Rattle.sets.specs.Sets.{has, stored, put as placed, BitFrom, FirstFrom};

// Ties 0 to 63, and 64 to 127.
#[derive(Clone, Copy)]
pub struct Ties {
    pub low: u64,
    pub high: u64,
}

pub const MOST: u8 = 128;

pub fn none() -> Ties
    ensures { (t : ℕ) → has result t ≡ false }
{
    Ties { low: 0, high: 0 }
}

pub fn only(t: u8) -> Ties
    requires { t < 128 }
    ensures { (u : ℕ) → has result u ≡ eqb u t }
{
    if t < 64 {
        Ties {
            low: 1 << t,
            high: 0,
        }
    } else {
        Ties {
            low: 0,
            high: 1 << (t - 64),
        }
    }
}

pub fn either(a: Ties, b: Ties) -> Ties
    ensures { (t : ℕ) → has result t ≡ has a t || has b t }
{
    Ties {
        low: a.low | b.low,
        high: a.high | b.high,
    }
}

// The ties that one of two sets has and the other hasn't.
pub fn difference(a: Ties, b: Ties) -> Ties
    ensures { (t : ℕ) → has result t ≡ xor (has a t) (has b t) }
{
    Ties {
        low: a.low ^ b.low,
        high: a.high ^ b.high,
    }
}

// The ties of a that b hasn't.
pub fn without(a: Ties, b: Ties) -> Ties
    ensures { (t : ℕ) → has result t ≡ has a t && not (has b t) }
{
    Ties {
        low: a.low ^ (a.low & b.low),
        high: a.high ^ (a.high & b.high),
    }
}

// The first tie of a set that isn't below `from`, if there is one.
pub fn first(a: Ties, from: u8) -> Option<u8>
    requires { from ≤ 128 }
    ensures { FirstFrom a from result }
{
    if from < 64 {
        if let Some(t) = first_bit(a.low, from) {
            return Some(t);
        }
        return Some(64 + first_bit(a.high, 0)?);
    }
    if from < MOST {
        Some(64 + first_bit(a.high, from - 64)?)
    } else {
        None
    }
}

fn first_bit(word: u64, from: u8) -> Option<u8>
    requires { from < 64 }
    ensures { BitFrom word from result }
{
    let rest = word >> from;
    if rest == 0 {
        None
    } else {
        Some(from + rest.trailing_zeros() as u8)
    }
}

// The set in place t of a row of them.
pub fn at(row: &[u64], t: u8) -> Ties
    requires { 2 * t + 1 < length row.now }
    ensures { result ≡ stored row.now t }
{
    let k = 2 * t as usize;
    Ties {
        low: row[k],
        high: row[k + 1],
    }
}

pub fn put(row: &mut [u64], t: u8, a: Ties)
    requires { 2 * t + 1 < length row.old }
    ensures { row.new ≡ placed row.old t a }
{
    let k = 2 * t as usize;
    row[k] = a.low;
    row[k + 1] = a.high;
}
