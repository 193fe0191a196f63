// A reason checked by the second box: reads a sheet, whose length stands in its first two bytes, and behind it a reason record, and prints
// one line: `yes`, `wrong at N`, `refused N at P`, or `no reason record`.
#![tactic(auto)]

ghost use Rattle.std.specs.Prelude.{◌≡◌, length};
ghost use Rattle.surveyor.specs.Surveyed.{number_of, place_of};
ghost use Rattle.recited.specs.Recited.{IsRecord};
ghost use Rattle.survey.specs.Parts.{SheetPart, Checked};

use std::io;
use surveyor::Survey;

// The bytes that are read, more than any sheet and any reason for it have.
const ROOM: usize = 524288;

fn main(rt: HostRuntime) -> io::Result<()> {
    let mut bytes = room();
    let n = streams::read_full(&mut rt.stdin(), &mut bytes)?;
    tell(&rt, &bytes[..n])
}

// The bytes before they are read. Only their count is told, since a proof would go through each of them.
fn room() -> [u8; ROOM]
    ensures { 524288 ≡ length result }
{
    [0; ROOM]
}

fn tell(rt: &impl Print, bytes: &[u8]) -> io::Result<()> {
    let k = sheet_length(bytes);
    tell_record(rt, &bytes[..k], &bytes[k..])
}

// How many of the bytes are the sheet's.
fn sheet_length(bytes: &[u8]) -> usize
    ensures { SheetPart bytes.now result }
{
    if bytes.len() < 2 {
        return bytes.len();
    }
    let stated = big::read(bytes, 0, 2) as usize;
    stated.max(2).min(bytes.len())
}

// A sheet that is sent back is so whatever stands behind it.
fn tell_record(rt: &impl Print, sheet: &[u8], record: &[u8]) -> io::Result<()> {
    if recited::is_record(record) {
        return print(rt, check_record(sheet, record));
    }
    match recited::check(sheet, &record[..0], &record[..0]) {
        Survey::Refused(why) => print(rt, Survey::Refused(why)),
        _ => println!(rt; "no reason record"),
    }
}

// The check of a record's list and steps.
fn check_record(sheet: &[u8], record: &[u8]) -> Survey
    requires { IsRecord «record».now }
    ensures { Checked sheet.now «record».now (number_of result) (place_of result) }
{
    let k = recited::list_end(record);
    recited::check(sheet, &record[recited::HEAD..k], &record[k..])
}

fn print(rt: &impl Print, told: Survey) -> io::Result<()> {
    match told {
        Survey::Yes => println!(rt; "yes"),
        Survey::Wrong(n) => println!(rt; "wrong at {n}"),
        _ => println!(rt; "refused {} at {}", told.number(), told.place()),
    }
}
