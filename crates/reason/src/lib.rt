// The call for reasons: a sheet's bytes in, the reason record of its first clashing list out, for any bytes and any room.
// It rests on the refusal table's check, the verdict, the first clashing list (blame) and the reason argued for it (argued), and joins them.
// Its promise is one record (specs/Reasoned.antt).
#![tactic(auto)]

ghost use Rattle.std.specs.Prelude.{◌≡◌};
ghost use Rattle.reason.specs.Reasoned.{number_of, place_of, Told, Reasoned};

use reading::Sheet;
use refusal::Refusal;
use verdict::Verdict;

// What the call says of a sheet. Written has the length of the record in the room.
#[derive(Clone, Copy)]
pub enum Reply {
    Written(u32),
    Short,
    Holds,
    Refused(Refusal),
}

impl Reply {
    pub fn number(self) -> u8
        ensures { result ≡ number_of self }
    {
        match self {
            Reply::Written(_) => 1,
            Reply::Short => 25,
            Reply::Holds => 26,
            Reply::Refused(why) => why.number(),
        }
    }

    pub fn place(self) -> u32
        ensures { result ≡ place_of self }
    {
        match self {
            Reply::Written(size) => size,
            Reply::Short => 0,
            Reply::Holds => 0,
            Reply::Refused(why) => why.place() as u32,
        }
    }
}

// Writes the reason record to the first bytes of the room unless the sheet is refused, holds, or the room is too short.
pub fn reason(sheet: &[u8], room: &mut [u8]) -> Reply
    ensures { Reasoned sheet.now room.old room.new (number_of result) (place_of result) }
{
    match refusal::check(sheet, sheet::ROOM_NEEDED) {
        Ok(()) => tell(&Sheet::of(sheet), room),
        Err(why) => Reply::Refused(why),
    }
}

// The reply to a sheet that isn't sent back.
fn tell(sheet: &Sheet, room: &mut [u8]) -> Reply
    ensures { Told sheet.now room.old room.new (number_of result) (place_of result) }
{
    sheet.formed();
    let all = [true; sheet::MAX_ENTRIES];
    let mut v = [0u64; guess::PLACES];
    if guess::values(sheet, &all, &mut v) {
        return Reply::Holds;
    }
    search(sheet, room)
}

// So by the table, which decides.
fn search(sheet: &Sheet, room: &mut [u8]) -> Reply
    ensures { Told sheet.now room.old room.new (number_of result) (place_of result) }
{
    sheet.formed();
    let mut marks = [true; sheet::MAX_ENTRIES];
    let mut d = [0u32; table::CELLS];
    match verdict::on(sheet, &marks, &mut d) {
        Verdict::Holds => Reply::Holds,
        Verdict::Clashes => {
            if room.len() < paper::ROOM {
                return Reply::Short;
            }
            blame::leave_out(sheet, &mut marks, &mut d);
            Reply::Written(argued::argue(sheet, room, &marks, &mut d) as u32)
        }
    }
}
