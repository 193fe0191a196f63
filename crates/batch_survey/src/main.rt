// Reasons from anybody checked, for tests and tools: reads frames until the input ends, and answers each.
// A frame is a count (two bytes, big-endian like all) and as many bytes of a sheet, a count (one byte) and as many entry numbers, and a count
// (two bytes) of steps and the steps as a reason record has them; one that is cut short, or has a count over its most, ends the run.
// The answer is the check's number (one byte) and its place (four bytes).
#![tactic(auto)]

ghost use Rattle.std.specs.Prelude.{◌+◌, ◌≤◌, ◌≡◌, length, IfOk, IfSome};
ghost use Rattle.recited.specs.Recited.{longest};
ghost use Rattle.batch_survey.specs.Reply.{most_steps, Reply};

use std::io;
use std::io::{Read, Write};

// The most bytes of a sheet that a frame may count.
const MOST: usize = 4096;

// The most steps, and the bytes of so many of the longest.
const STEPS: usize = 256;

const ROOM: usize = STEPS * recited::LONGEST;

fn main(rt: HostRuntime) -> io::Result<()> {
    // A proved loop has to end, and nothing says that the input does: it counts up to a number that no run uses up.
    for _ in 0..u64::MAX {
        if !answer_frame(&mut rt.stdin(), &mut rt.stdout())? {
            break;
        }
    }
    Ok(())
}

// Answers one frame; false where there is none.
fn answer_frame(input: &mut impl Read, output: &mut impl Write) -> io::Result<bool> {
    let mut head = [0u8; 2];
    if streams::read_full(input, &mut head)? < 2 {
        return Ok(false);
    }
    let k = big::read(&head, 0, 2) as usize;
    if MOST < k {
        return Ok(false);
    }
    let mut sheet = [0u8; MOST];
    answer_sheet(input, output, &mut sheet[..k])
}

fn answer_sheet(
    input: &mut impl Read,
    output: &mut impl Write,
    sheet: &mut [u8],
) -> io::Result<bool> {
    if streams::read_full(input, sheet)? < sheet.len() {
        return Ok(false);
    }
    let mut head = [0u8; 1];
    if streams::read_full(input, &mut head)? < 1 {
        return Ok(false);
    }
    let mut list = [0u8; 255];
    let j = big::read(&head, 0, 1) as usize;
    answer_list(input, output, sheet, &mut list[..j])
}

fn answer_list(
    input: &mut impl Read,
    output: &mut impl Write,
    sheet: &[u8],
    list: &mut [u8],
) -> io::Result<bool> {
    if streams::read_full(input, list)? < list.len() {
        return Ok(false);
    }
    let mut head = [0u8; 2];
    if streams::read_full(input, &mut head)? < 2 {
        return Ok(false);
    }
    let m = big::read(&head, 0, 2) as usize;
    if STEPS < m {
        return Ok(false);
    }
    answer_steps(input, output, sheet, list, m)
}

fn answer_steps(
    input: &mut impl Read,
    output: &mut impl Write,
    sheet: &[u8],
    list: &[u8],
    m: usize,
) -> io::Result<bool>
    requires { m ≤ most_steps }
{
    let mut bytes = [0u8; ROOM];
    let mut at = 0;
    for _ in 0..m {
        let Some(end) = read_step(input, &mut bytes, at)? else {
            return Ok(false);
        };
        at = end;
    }
    let mut answer = [0u8; 5];
    reply(sheet, list, &bytes[..at], &mut answer);
    output.write_all(&answer)?;
    Ok(true)
}

// Reads one step to the bytes from `at` on, and answers where it ends, if it is there before the input ends.
fn read_step(input: &mut impl Read, bytes: &mut [u8], at: usize) -> io::Result<Option<usize>>
    requires { at + longest ≤ length bytes.old }
    ensures { IfOk result (λ step. IfSome step (λ end. (at ≤ end) × (end ≤ at + longest))) }
{
    let bounds = at + recited::STEP;
    if streams::read_full(input, &mut bytes[at..bounds])? < recited::STEP {
        return Ok(None);
    }
    let end = at + recited::size(bytes, at);
    if streams::read_full(input, &mut bytes[bounds..end])? < end - bounds {
        return Ok(None);
    }
    Ok(Some(end))
}

// Number and place of the check.
fn reply(sheet: &[u8], list: &[u8], steps: &[u8], bytes: &mut [u8])
    requires { length bytes.old ≡ 5 }
    ensures { Reply sheet.now list.now steps.now bytes.new }
{
    let told = recited::check(sheet, list, steps);
    bytes[0] = told.number();
    big::write(bytes, 1, 4, told.place() as u64);
}
