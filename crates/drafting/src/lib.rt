// The sheet of a typed text as code writes it, from the memory of its terms and entries.
// It rests on big's way of writing numbers, and promises the sheet's bytes and that the rest of the room is as it was.
#![tactic(auto)]

ghost use Rattle.std.specs.Prelude.{◌≡◌, ◌+◌, ◌*◌, ◌^◌, ◌≤◌, ◌<◌, length};
ghost use Rattle.std.proofs.lemmas.List.Edits.{sets};
ghost use Rattle.sheet.specs.Limits.{max_terms, max_entries, sheet_length};
ghost use Rattle.written.specs.Written.{in_row};
ghost use Rattle.met.specs.Model.{memory_cells, count_in};
ghost use Rattle.drafting.specs.Draft.{record_in, record_bytes, cells, Drafted};

use met::MEMORY;

// The bytes of a record, and of the head.
const RECORD: usize = 6;

// A variable's key is its name and this, over every record.
const NAMES: usize = 281474976710656;

// Writes the sheet of the terms in the memory and of l entries, and answers its length. The head is written as one number: the length, 1, T,
// L and 0 are its digits.
pub fn sheet(m: &[usize; MEMORY], l: usize, room: &mut [u8]) -> usize
    requires { (length m.now ≡ memory_cells) × (count_in m.now ≤ max_terms) × (l ≤ max_entries) × (sheet_length max_terms max_entries ≤ length room.old) }
    ensures { Drafted m.now l room.old room.new result }
{
    let t = m[met::COUNT];
    let entries = RECORD + RECORD * t;
    let size = entries + RECORD * l;
    big::write(
        room,
        0,
        RECORD,
        ((((size * 256 + 1) * 256 + t) * 256 + l) * 256) as u64,
    );
    records(room, RECORD, m, 0, t);
    records(room, entries, m, met::ENTRIES, l);
    size
}

// Writes a record for each of the count cells from one on.
fn records(room: &mut [u8], at: usize, m: &[usize; MEMORY], from: usize, count: usize)
    requires { (length m.now ≡ memory_cells) × (from + count ≤ memory_cells) × (at + 6 * count ≤ length room.old) }
    ensures { room.new ≡ sets room.old at (in_row record_bytes (cells m.now from count)) }
{
    for i in 0..count {
        big::write(room, at + RECORD * i, RECORD, record(m[from + i]));
    }
}

fn record(key: usize) -> u64
    ensures { (result ≡ record_in key) × (result < 256 ^ 6) }
{
    if key < NAMES { key as u64 } else { 0 }
}
