// The small program for typed sheets: reads a text from standard input, up to one byte more than the most, and prints one line.
// It is thin over the transcript and the panel, which are proved; what it reads and prints is run and compared.
#![tactic(auto)]

use promise::Answer;
use std::io;

// The most bytes that are judged.
const MOST: usize = 65535;

fn main(rt: HostRuntime) -> io::Result<()> {
    let mut text = [0u8; MOST + 1];
    let lent = streams::read_full(&mut rt.stdin(), &mut text)?;
    if MOST < lent {
        return println!(rt; "refused: more than 65535 bytes");
    }
    judge_text(&rt, &text[..lent])
}

fn judge_text(rt: &impl Print, text: &[u8]) -> io::Result<()> {
    let mut bytes = [0u8; transcript::ROOM];
    match transcript::transcribe(text, &mut bytes) {
        Ok(size) => judge_sheet(rt, &bytes[..size]),
        Err(slip) => print_refused(rt, slip.number(), slip.place() as u64),
    }
}

fn judge_sheet(rt: &impl Print, bytes: &[u8]) -> io::Result<()> {
    let mut room = [0u8; sheet::ROOM_NEEDED];
    match panel::judge(bytes, &mut room) {
        Answer::Holds(_) => println!(rt; "holds"),
        Answer::Clashes(size) => {
            let end = size as usize;
            print_clash(rt, &room[writing::HEAD..end])
        }
        Answer::Refused(why) => print_refused(rt, why.number(), why.place() as u64),
    }
}

// A sheet's refusal or a text's, by number and place: a Display of each would write the line twice.
fn print_refused(rt: &impl Print, number: u8, place: u64) -> io::Result<()> {
    println!(rt; "refused {number} at {place}")
}

// Each entry's number after a space.
fn print_clash(rt: &impl Print, list: &[u8]) -> io::Result<()> {
    print!(rt; "clashes")?;
    for entry in list {
        print!(rt; " {entry}")?;
    }
    println!(rt; "")
}
