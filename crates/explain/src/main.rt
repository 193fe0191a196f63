// The small program for reasons: reads a sheet from standard input, up to one byte more than the longest, prints the line that `judge` prints
// and, on a clash, the reason in words, step by step.
// It is thin over the call for reasons, which is proved; what it reads and prints is run and compared. Records are read as far as they go.
#![tactic(auto)]

mod reasoning;
mod records;
mod words;

use crate::reasoning::Reasoning;
use crate::records::byte;
use crate::words::Words;
use reason::Reply;
use refusal::Refusal;
use sheet::EntryNumber;
use std::io;

fn main(rt: HostRuntime) -> io::Result<()> {
    let mut bytes = [0u8; sheet::LONGEST + 1];
    let lent = streams::read_full(&mut rt.stdin(), &mut bytes)?;
    let mut room = [0u8; paper::ROOM];
    match reason::reason(&bytes[..lent], &mut room) {
        Reply::Written(_) => explain(&rt, &bytes[..lent], &room),
        // the room has the size that is always enough
        Reply::Short => Ok(()),
        Reply::Holds => println!(rt; "holds"),
        Reply::Refused(why) => say_refused(&rt, why),
    }
}

fn say_refused(rt: &impl Print, why: Refusal) -> io::Result<()> {
    println!(rt; "refused {} at {}", why.number(), why.place())
}

// The list, its entries in words, the terms that aren't written out where they stand, and the steps.
fn explain<P: Print>(rt: &P, sheet: &[u8], record: &[u8]) -> io::Result<()> {
    let k = records::pair(record, 6);
    let words = Words::new(rt, sheet);
    say_list(rt, record, k)?;
    for x in 0..k {
        words.say_entry(listed(record, x))?;
    }
    words.say_large()?;
    Reasoning::new(rt, sheet, &words, record).say_all(k)
}

// Each entry's number after a space.
fn say_list(rt: &impl Print, record: &[u8], k: u16) -> io::Result<()> {
    print!(rt; "clashes")?;
    for x in 0..k {
        print!(rt; " {}", listed(record, x).0)?;
    }
    println!(rt)
}

// The entry at place x of the list.
fn listed(record: &[u8], x: u16) -> EntryNumber {
    EntryNumber(byte(record, paper::HEAD + usize::from(x)))
}
