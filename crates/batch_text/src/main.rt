// Many typed texts, for tests and tools: reads frames until the input ends, and answers each.
// A frame is the room's size (two bytes), a count (four bytes, both big-endian) and as many bytes of text; one that is cut short, or has a
// number over its most, ends the run.
// The answer is the transcript's number (one byte), its place (four bytes, big-endian) and the whole room, lent full of 0xAA.
#![tactic(auto)]

ghost use Rattle.std.specs.Prelude.{◌≤◌, ◌≡◌, length};
ghost use Rattle.batch_text.specs.Reply.{most_room, most_text, blank, Reply};

use std::io;
use std::io::{Read, Write};

// The largest room that a frame may ask for.
const MOST_ROOM: usize = 2048;

// The most bytes of text that a frame may count.
const MOST_TEXT: usize = 65536;

// The answer to a frame: number, place and the largest room.
const REPLY: usize = 5 + MOST_ROOM;

fn main(rt: HostRuntime) -> io::Result<()> {
    // A proved loop has to end, and nothing says that the input does: it counts up to a number that no run uses up.
    for _ in 0..u64::MAX {
        if !answer_frame(&mut rt.stdin(), &mut rt.stdout())? {
            break;
        }
    }
    Ok(())
}

// Answers one frame; false where there is none.
fn answer_frame(input: &mut impl Read, output: &mut impl Write) -> io::Result<bool> {
    let mut head = [0u8; 6];
    if streams::read_full(input, &mut head)? < 6 {
        return Ok(false);
    }
    let size = big::read(&head, 0, 2) as usize;
    if MOST_ROOM < size {
        return Ok(false);
    }
    let k = big::read(&head, 2, 4) as usize;
    if MOST_TEXT < k {
        return Ok(false);
    }
    let mut text = [0u8; MOST_TEXT];
    answer_text(input, output, &mut text[..k], size)
}

// Reads as many bytes as the frame counts, and answers them.
fn answer_text(
    input: &mut impl Read,
    output: &mut impl Write,
    text: &mut [u8],
    size: usize,
) -> io::Result<bool>
    requires { (length text.old ≤ most_text) × (size ≤ most_room) }
{
    if streams::read_full(input, text)? < text.len() {
        return Ok(false);
    }
    let mut bytes = [0xAAu8; REPLY];
    reply(text, size, &mut bytes);
    let end = 5 + size;
    output.write_all(&bytes[..end])?;
    Ok(true)
}

// Lends what is behind number and place, as much as the frame asks for, as the room.
fn reply(text: &[u8], size: usize, bytes: &mut [u8])
    requires { (length text.now ≤ most_text) × (size ≤ most_room) × (bytes.old ≡ blank) }
    ensures { Reply text.now size bytes.new }
{
    let end = 5 + size;
    let typed = transcript::transcribe(text, &mut bytes[5..end]);
    bytes[0] = transcript::number_of(typed);
    big::write(bytes, 1, 4, transcript::place_of(typed) as u64);
}
