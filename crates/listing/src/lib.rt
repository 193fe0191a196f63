// The record of a clash as code writes it: the numbers of a set's entries, rising, behind a head.
// It rests on writing's head, and promises the record's bytes (answer) and that the rest of the room is as it was.
#![tactic(auto)]

ghost use Rattle.std.specs.Prelude.{◌+◌, ◌≤◌, length, drop};
ghost use Rattle.big.specs.Big.{Kept};
ghost use Rattle.order.specs.First.{marked, Listed};
ghost use Rattle.answer.specs.Record.{head_length};
ghost use Rattle.listing.specs.Named.{Named};

use writing::{HEAD, Verdict};

// Writes the numbers of the marked entries below n as the record, and answers its length.
pub fn clashes(room: &mut [u8], marks: &[bool], n: usize) -> usize
    requires { (n ≤ length marks.now) × (head_length + n ≤ length room.old) × (n ≤ 256) }
    ensures { Named n (marked marks.now) room.old room.new result }
{
    let k = list(room, HEAD, marks, n);
    writing::head(room, HEAD + k, Verdict::Clashes as u8, k as u64);
    HEAD + k
}

// Writes the numbers of the marked entries below n from byte `at` on, rising, and answers how many there are.
pub fn list(room: &mut [u8], at: usize, marks: &[bool], n: usize) -> usize
    requires { (n ≤ length marks.now) × (at + n ≤ length room.old) × (n ≤ 256) }
    ensures count { result ≤ n }
    ensures listed { Listed n (marked marks.now) (drop at room.new) result }
    ensures kept { Kept room.old room.new at result }
{
    let mut k = 0;
    for (x, marked) in marks[..n].iter().enumerate() {
        if *marked {
            room[at + k] = x as u8;
            k += 1;
        }
    }
    k
}
