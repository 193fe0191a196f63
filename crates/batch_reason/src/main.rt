// Reasons for many sheets, for tests and tools: reads frames until the input ends, and answers each.
// A frame is the room's size (four bytes), a count (two bytes, both big-endian) and as many bytes of a sheet; one that is cut short, or has a
// number over its most, ends the run.
// The answer is the call's number (one byte), its place (four bytes, big-endian) and, where a reason is written, the whole room, lent full of
// 0xAA; else a byte that is 1 where every byte of the room is still 0xAA, and 0 where one isn't.
#![tactic(auto)]

ghost use Rattle.std.specs.Prelude.{ℕ, ◌≤◌, ◌<◌, ◌≡◌, true, ◌↔◌, length, get_or};
ghost use Rattle.paper.specs.Record.{reason_room};
ghost use Rattle.batch_reason.specs.Reply.{blank, Reply};

use std::io;
use std::io::{Read, Write};

// The most bytes of a sheet that a frame may count.
const MOST: usize = 4096;

// The answer to a frame: number, place and the largest room.
const REPLY: usize = 5 + paper::ROOM;

fn main(rt: HostRuntime) -> io::Result<()> {
    // A proved loop has to end, and nothing says that the input does: it counts up to a number that no run uses up.
    for _ in 0..u64::MAX {
        if !answer_frame(&mut rt.stdin(), &mut rt.stdout())? {
            break;
        }
    }
    Ok(())
}

// Answers one frame; false where there is none.
fn answer_frame(input: &mut impl Read, output: &mut impl Write) -> io::Result<bool> {
    let mut head = [0u8; 6];
    if streams::read_full(input, &mut head)? < 6 {
        return Ok(false);
    }
    let size = big::read(&head, 0, 4) as usize;
    if paper::ROOM < size {
        return Ok(false);
    }
    let k = big::read(&head, 4, 2) as usize;
    if MOST < k {
        return Ok(false);
    }
    let mut sheet = [0u8; MOST];
    answer_sheet(input, output, &mut sheet[..k], size)
}

// Reads as many bytes as the frame counts, and answers them.
fn answer_sheet(
    input: &mut impl Read,
    output: &mut impl Write,
    sheet: &mut [u8],
    size: usize,
) -> io::Result<bool>
    requires { size ≤ reason_room }
{
    if streams::read_full(input, sheet)? < sheet.len() {
        return Ok(false);
    }
    let mut bytes = [0xAAu8; REPLY];
    reply(sheet, size, &mut bytes);
    let end = 5 + size;
    if bytes[0] == 1 {
        output.write_all(&bytes[..end])?;
        return Ok(true);
    }
    bytes[5] = u8::from(untouched(&bytes[5..end]));
    output.write_all(&bytes[..6])?;
    Ok(true)
}

// Lends what is behind number and place, as much as the frame asks for, as the room.
fn reply(sheet: &[u8], size: usize, bytes: &mut [u8])
    requires { (size ≤ reason_room) × (bytes.old ≡ blank) }
    ensures { Reply sheet.now size bytes.new }
{
    let end = 5 + size;
    let told = reason::reason(sheet, &mut bytes[5..end]);
    bytes[0] = told.number();
    big::write(bytes, 1, 4, told.place() as u64);
}

// Whether every byte of a room is still as it was lent.
fn untouched(room: &[u8]) -> bool
    ensures { result ≡ true ↔ ((i : ℕ) → i < length room.now → get_or room.now i 0 ≡ 0xAA) }
{
    room.iter().all(|b| *b == 0xAA)
}
