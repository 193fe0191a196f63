// Sheet 15's last part, run: the sheet on standard input with answer rooms of 1,031 and of 1,032 bytes, as document 02 amends it; the
// numbers stand here by themselves, so that what the limits give is held to them.
// It is thin over the panel, and prints the number and the place of each answer on a line.
#![tactic(auto)]

use promise::Answer;
use std::io;

fn main(rt: HostRuntime) -> io::Result<()> {
    let mut bytes = [0u8; sheet::LONGEST + 1];
    let lent = streams::read_full(&mut rt.stdin(), &mut bytes)?;
    let mut short = [0u8; 1031];
    print_answer(&rt, panel::judge(&bytes[..lent], &mut short))?;
    let mut enough = [0u8; 1032];
    print_answer(&rt, panel::judge(&bytes[..lent], &mut enough))
}

fn print_answer(rt: &impl Print, answer: Answer) -> io::Result<()> {
    println!(rt; "{} {}", answer.number(), answer.place())
}
