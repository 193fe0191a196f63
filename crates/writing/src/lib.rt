// The answer record as code writes it: the head that both records begin with, line by line of document 01's table, and the record of values.
// It rests on big's way of writing numbers, and promises the record's bytes (answer) and that the rest of the room is as it was.
#![tactic(auto)]

ghost use Rattle.std.specs.Prelude.{◌≡◌, ◌+◌, ◌*◌, ◌<◌, ◌≤◌, length};
ghost use Rattle.answer.specs.Record.{head_length};
ghost use Rattle.answer.specs.Levels.{Recorded};
ghost use Rattle.writing.specs.Head.{Headed};

// The bytes that both records begin with.
pub const HEAD: usize = 8;

// What a record says of the sheet, and its number in the head.
#[derive(Clone, Copy, PartialEq, Eq, Debug)]
pub enum Verdict {
    Holds = 0,
    Clashes = 1,
}

// Writes the head of a record of size bytes: verdict is a Verdict's number, count is D or k. It is written as one number: the length, 1,
// the verdict, the count and 0 are its digits. The verdict is a byte, since what a head with any other byte is, is promised too.
pub fn head(room: &mut [u8], size: usize, verdict: u8, count: u64)
    requires { (head_length ≤ length room.old) × (size < 65536) × (count < 65536) }
    ensures { Headed room.old room.new size verdict count }
{
    let bytes = (size as u64 * 256 + 1) * 256 + u64::from(verdict);
    big::write(room, 0, 8, (bytes * 65536 + count) * 65536);
}

// Writes D and one n for each of t terms as the record, and answers its length. The values are given as levels, the zero level last.
pub fn holds(room: &mut [u8], d: u64, v: &[u64], t: usize) -> usize
    requires { (head_length + 8 * t ≤ length room.old) × (head_length + 8 * t < 65536) × (t < length v.now) × (d < 65536) }
    ensures length { result ≡ head_length + 8 * t }
    ensures written { Recorded room.old room.new v.now d t }
{
    let size = HEAD + 8 * t;
    head(room, size, Verdict::Holds as u8, d);
    for i in 0..t {
        big::write(room, HEAD + 8 * i, 8, v[i].wrapping_sub(v[t]));
    }
    size
}
