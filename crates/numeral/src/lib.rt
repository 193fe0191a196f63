// A number in a typed text, read digit by digit up to its limit.
// It rests on nothing but the bytes, and promises the number and its end, or the first digit that is wrong, as the model has them
// (specs/Model.antt); proofs/Told.antt says what the model's answer means for the text.
#![tactic(auto)]

ghost use Rattle.std.specs.Prelude.{◌≡◌, ◌≤◌, get_or};
ghost use Rattle.slips.specs.Outcome.{found_says};
ghost use Rattle.numeral.specs.Model.{Bounded, digit_of, DigitAs, number};

use slips::{Found, Slip};

// The byte at i, and behind the text a 0, which no text has: no Option, so that readers compare without a case for the end.
pub fn byte_at(s: &[u8], i: usize) -> u8
    ensures { result ≡ get_or s.now i 0 }
{
    if i < s.len() { s[i] } else { 0 }
}

// The digit at i, where one stands.
fn digit_at(s: &[u8], i: usize) -> Option<usize>
    ensures { DigitAs (digit_of (get_or s.now i 0)) result }
{
    let c = byte_at(s, i);
    if c.is_ascii_digit() {
        Some((c - b'0') as usize)
    } else {
        None
    }
}

// The number from i on, which is at least `least`, 0 or 1.
pub fn number_at(s: &[u8], i: usize, least: usize, limit: usize) -> Found
    requires { limit ≤ 65535 }
    ensures model { found_says result ≡ number s.now i least limit }
    ensures bounded { Bounded result }
{
    let Some(first) = digit_at(s, i) else {
        return Err(Slip::Form(i));
    };
    if first < least {
        return Err(Slip::Form(i));
    }
    let mut n = first;
    let mut e = i + 1;
    // A while: where the number ends isn't known before it is read.
    while let Some(d) = digit_at(s, e) {
        if n == 0 {
            return Err(Slip::Form(e));
        }
        n = 10 * n + d;
        if limit < n {
            return Err(Slip::Range(e));
        }
        e += 1;
    }
    Ok((e, n))
}
