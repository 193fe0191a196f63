// The call: a sheet's bytes in, the answer record out, for any bytes and any answer room.
// It rests on the refusal table's check, on values that are guessed and checked, and else on the verdict, its values and the first
// clashing list, and joins them.
// Its promise is one record (promise, specs/Answered.antt).
#![tactic(auto)]

ghost use Rattle.std.specs.Prelude.{◌≤◌, length};
ghost use Rattle.sheet.specs.Limits.{room_needed};
ghost use Rattle.promise.specs.Answered.{number_of, place_of, Decided, Answered};

use promise::Answer;
use reading::Sheet;
use verdict::Verdict;

// Judges the sheet, and writes the answer record to the first bytes of the room unless the sheet is refused.
pub fn judge(sheet: &[u8], room: &mut [u8]) -> Answer
    ensures { Answered sheet.now room.old room.new (number_of result) (place_of result) }
{
    match refusal::check(sheet, room.len()) {
        Ok(()) => decide(&Sheet::of(sheet), room),
        Err(why) => Answer::Refused(why),
    }
}

// The answer to a sheet that isn't sent back: with values that were guessed and found to meet it, or by the table.
fn decide(sheet: &Sheet, room: &mut [u8]) -> Answer
    requires { room_needed ≤ length room.old }
    ensures { Decided sheet.now room.old room.new (number_of result) (place_of result) }
{
    let terms = sheet.count_terms();
    let all = [true; sheet::MAX_ENTRIES];
    let mut v = [0u64; guess::PLACES];
    if !guess::values(sheet, &all, &mut v) {
        return search(sheet, room);
    }
    Answer::Holds(writing::holds(room, guess::D, &v, terms) as u16)
}

// The answer by the table, which decides.
fn search(sheet: &Sheet, room: &mut [u8]) -> Answer
    requires { room_needed ≤ length room.old }
    ensures { Decided sheet.now room.old room.new (number_of result) (place_of result) }
{
    sheet.formed();
    let every = [true; sheet::MAX_ENTRIES];
    let mut d = [0u32; table::CELLS];
    match verdict::on(sheet, &every, &mut d) {
        Verdict::Holds => Answer::Holds(values::write(sheet, &d, room) as u16),
        Verdict::Clashes => Answer::Clashes(blame::write(sheet, room, &mut d) as u16),
    }
}
