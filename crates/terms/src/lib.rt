// Terms of a typed text: the reader of a term and that of an argument list call each other, and what is left of the brackets' depth falls.
// It rests on numerals and on the terms met, and promises what the model says (specs/Model.antt); proofs/Told.antt says what that means for
// the text.
#![tactic(auto)]

ghost use Rattle.std.specs.Prelude.{◌≤◌};
ghost use Rattle.slips.specs.Outcome.Outcome.{read};
ghost use Rattle.terms.specs.Model.{Held, Answers, value_at, shifted_at, closed_at, arguments, term};

use met::{MEMORY, Read};
use sheet::TermNumber;
use slips::Slip;

// One of each field of a key: the kind, the symbol, a and b stand before c, each in a byte.
pub const KIND: usize = 1099511627776;

const SYMBOL: usize = 4294967296;

pub const A: usize = 16777216;

pub const B: usize = 65536;

// A variable's key is its name and this, over every record.
pub const NAMES: usize = 281474976710656;

// 1 below zero, in two bytes.
const BACK: usize = 65535;

// The number at i as a term: its key is the base and as many times the step, in two bytes.
#[tactic(auto, using(crate::proofs::Answered::entered_held), unfolding(crate::specs::Model::value_at))]
fn value(
    s: &[u8],
    i: usize,
    m: &mut [usize; MEMORY],
    least: usize,
    limit: usize,
    base: usize,
    step: usize,
) -> Read
    requires { Held m.old × (limit ≤ 65535) × (base ≤ 1152921504606846976) × (step ≤ 65535) }
    ensures { Answers result m.new (value_at s.now i m.old least limit base step) }
{
    let (e, n) = numeral::number_at(s, i, least, limit)?;
    met::enter(m, base + n * step % B, e)
}

// Behind a plain term that ends before e, its shift where it has one.
fn shift(plain: (usize, TermNumber), s: &[u8], m: &mut [usize; MEMORY]) -> Read
    requires { Held m.old }
    ensures { Answers result m.new (shifted_at s.now m.old (read plain.0 plain.1.0)) }
{
    let (e, a) = plain;
    let base = 2 * KIND + a.0 as usize * A;
    match numeral::byte_at(s, e) {
        b'+' => value(s, e + 1, m, 0, 32767, base, 1),
        b'-' => value(s, e + 1, m, 0, 32768, base, BACK),
        _ => Ok(plain),
    }
}

// The closing bracket of an application with this key.
#[tactic(auto, using(crate::proofs::Answered::entered_held), unfolding(crate::specs::Model::closed_at))]
fn closed(s: &[u8], e: usize, m: &mut [usize; MEMORY], key: usize) -> Read
    requires { Held m.old }
    ensures { Answers result m.new (closed_at s.now e m.old key) }
{
    if numeral::byte_at(s, e) == b')' {
        met::enter(m, key, e + 1)
    } else {
        Err(Slip::Form(e))
    }
}

// The argument list at i, of symbol f.
#[cycle(arguments_term)]
#[tactic(auto, using(crate::proofs::Answered::deeper), unfolding(crate::specs::Model::arguments))]
pub fn arguments(s: &[u8], i: usize, f: usize, m: &mut [usize; MEMORY], depth: usize) -> Read
    requires { Held m.old × (f ≤ 65535) }
    ensures { Answers result m.new (arguments depth s.now i f m.old) }
{
    if numeral::byte_at(s, i) != b'(' {
        return Err(Slip::Form(i));
    }
    if depth == 0 {
        return Err(Slip::Deep(i));
    }
    let (e, a) = term(s, i + 1, m, depth - 1)?;
    let one = f * SYMBOL + a.0 as usize * A;
    if numeral::byte_at(s, e) != b',' {
        return closed(s, e, m, 3 * KIND + one);
    }
    let (g, b) = term(s, e + 1, m, depth - 1)?;
    closed(s, g, m, 4 * KIND + one + b.0 as usize * B)
}

// The term at i, which goes no deeper than so many brackets.
#[cycle(arguments_term)]
#[tactic(auto, unfolding(crate::specs::Model::shifted))]
pub fn term(s: &[u8], i: usize, m: &mut [usize; MEMORY], depth: usize) -> Read
    requires { Held m.old }
    ensures { Answers result m.new (term depth s.now i m.old) }
{
    match numeral::byte_at(s, i) {
        b'f' => {
            let (e, f) = numeral::number_at(s, i + 1, 0, 255)?;
            let plain = arguments(s, e, f, m, depth)?;
            shift(plain, s, m)
        }
        b'x' => {
            let plain = value(s, i + 1, m, 0, 99, NAMES, 1)?;
            shift(plain, s, m)
        }
        b'-' => value(s, i + 1, m, 1, 32768, KIND, BACK),
        _ => value(s, i, m, 0, 32767, KIND, 1),
    }
}
