// The keys of a term's input: two numbers that say its kind, its symbol and its arguments' levels. It rests on the sheet's terms, and
// promises that no two inputs have the same keys.
// Near and Ready, which say when no sum on levels overflows, stand in its specs: rules and meets rest on it and need them too.
#![tactic(auto)]

ghost use Rattle.std.specs.Prelude.{◌≡◌, ◌+◌, ◌*◌, ◌^◌, ◌≤◌, ◌<◌};
ghost use Rattle.sheet.specs.Says.{term_says};
ghost use Rattle.sheet.specs.Sheet.{ArgumentsBelow};
ghost use Rattle.keys.specs.Ready.{Ready};
ghost use Rattle.keys.specs.Keys.{height, first_key, second_key, SymbolFits};

use sheet::{Symbol, Term, TermNumber};

// The answer's limit on a value, 2 ^ 40.
pub const LIMIT: u64 = 1099511627776;

// The keys of a term's input: a pair of terms is two comparisons.
#[derive(Clone, Copy)]
pub struct Input {
    pub first: u64,
    pub second: u64,
}

pub fn input_of(v: &[u64], t: usize, x: Term) -> Input
    requires { Ready v.now t × ArgumentsBelow t (term_says x) }
    ensures { (result.first ≡ first_key v.now t (term_says x)) × (result.second ≡ second_key v.now t (term_says x)) × SymbolFits (term_says x) }
{
    match x {
        Term::Apply(f, a) => Input {
            first: applied(v, t, 1, f, a),
            second: 0,
        },
        Term::Apply2(f, a, b) => Input {
            first: applied(v, t, 257, f, a),
            second: height_of(v, t, b),
        },
        _ => Input {
            first: 0,
            second: 0,
        },
    }
}

// 1 and 257 as the kind leave a byte between them for the symbol.
fn applied(v: &[u64], t: usize, kind: u64, f: Symbol, a: TermNumber) -> u64
    requires { Ready v.now t × (kind ≤ 257) × (a.0 < t) }
    ensures { (result ≡ kind + f.0 + 512 * height v.now t a.0) × (f.0 < 256) }
{
    kind + f.0 as u64 + 512 * height_of(v, t, a)
}

// Over the lowest level that the limits allow, so that no height is below 0.
fn height_of(v: &[u64], t: usize, a: TermNumber) -> u64
    requires { Ready v.now t × (a.0 < t) }
    ensures { (result ≡ height v.now t a.0) × (result ≤ 2 ^ 41) }
{
    v[a.0 as usize] + LIMIT - v[t]
}
