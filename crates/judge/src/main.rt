// The small program: reads a sheet from standard input, up to one byte more than the longest, and prints one line.
// It is thin over the panel, which is proved; what it reads and prints is run and compared.
#![tactic(auto)]

use promise::Answer;
use refusal::Refusal;
use std::io;

fn main(rt: HostRuntime) -> io::Result<()> {
    let mut bytes = [0u8; sheet::LONGEST + 1];
    let lent = streams::read_full(&mut rt.stdin(), &mut bytes)?;
    let mut room = [0u8; sheet::ROOM_NEEDED];
    match panel::judge(&bytes[..lent], &mut room) {
        Answer::Holds(_) => println!(rt; "holds"),
        Answer::Clashes(size) => {
            let end = size as usize;
            print_clash(&rt, &room[writing::HEAD..end])
        }
        Answer::Refused(why) => print_refused(&rt, why),
    }
}

fn print_refused(rt: &impl Print, why: Refusal) -> io::Result<()> {
    println!(rt; "refused {} at {}", why.number(), why.place())
}

// Each entry's number after a space.
fn print_clash(rt: &impl Print, list: &[u8]) -> io::Result<()> {
    print!(rt; "clashes")?;
    for entry in list {
        print!(rt; " {entry}")?;
    }
    println!(rt; "")
}
