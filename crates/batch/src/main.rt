// Many sheets, for tests and tools: reads frames until the input ends, and answers each.
// A frame is a count of two bytes, big-endian, and as many bytes; one that is cut short or over the most ends the run.
// The answer is the panel's number (one byte), its place (two bytes, big-endian) and the whole answer room, lent full of 0xAA.
#![tactic(auto)]

ghost use Rattle.std.specs.Prelude.{◌≡◌};
ghost use Rattle.batch.specs.Reply.{blank, Reply};

use std::io;
use std::io::{Read, Write};

// The most bytes that a frame may count.
const MOST: usize = 4096;

// The answer to a frame: number, place and room.
const REPLY: usize = 3 + sheet::ROOM_NEEDED;

fn main(rt: HostRuntime) -> io::Result<()> {
    // A proved loop has to end, and nothing says that the input does: it counts up to a number that no run uses up.
    for _ in 0..u64::MAX {
        if !answer_frame(&mut rt.stdin(), &mut rt.stdout())? {
            break;
        }
    }
    Ok(())
}

// Answers one frame; false where there is none.
fn answer_frame(input: &mut impl Read, output: &mut impl Write) -> io::Result<bool> {
    let mut count = [0u8; 2];
    if streams::read_full(input, &mut count)? < 2 {
        return Ok(false);
    }
    let k = big::read(&count, 0, 2) as usize;
    if MOST < k {
        return Ok(false);
    }
    let mut sheet = [0u8; MOST];
    answer_sheet(input, output, &mut sheet[..k])
}

// Reads as many bytes as the frame counts, and answers them.
fn answer_sheet(
    input: &mut impl Read,
    output: &mut impl Write,
    sheet: &mut [u8],
) -> io::Result<bool> {
    if streams::read_full(input, sheet)? < sheet.len() {
        return Ok(false);
    }
    let mut bytes = [0xAAu8; REPLY];
    reply(sheet, &mut bytes);
    output.write_all(&bytes)?;
    Ok(true)
}

// Lends what is behind number and place as the answer room.
fn reply(sheet: &[u8], bytes: &mut [u8])
    requires { bytes.old ≡ blank }
    ensures { Reply sheet.now bytes.new }
{
    let answer = panel::judge(sheet, &mut bytes[3..]);
    bytes[0] = answer.number();
    big::write(bytes, 1, 2, answer.place() as u64);
}
