// The calls for other languages: a static library with four functions of C's calling convention.
// They are the panel's `judge`, the transcript's `transcribe`, the call for reasons and the surveyor's check, each with its answer in one
// number, and promise what those promise.
#![tactic(auto)]

ghost use Rattle.std.specs.Prelude.{◌/◌, ◌%◌};
ghost use Rattle.promise.specs.Answered.{Answered};
ghost use Rattle.reason.specs.Reasoned.{Reasoned};
ghost use Rattle.recited.specs.Recited.{Recited};
ghost use Rattle.baruvkesh.specs.Called.{places, Called};

// 2^32: places below it fit the answer's low half.
const PLACES: u64 = 4294967296;

// The answer's number × 65,536 plus its place.
#[unsafe(no_mangle)]
pub extern "C" fn baruvkesh_judge(sheet: &[u8], room: &mut [u8]) -> u32
    ensures { Answered sheet.now room.old room.new (result / 65536) (result % 65536) }
{
    let answer = panel::judge(sheet, room);
    (answer.number() as u32) * 65536 + (answer.place() as u32)
}

// The answer's number × 2^32 plus its place. A text of 2^32 bytes or more isn't read, since a place in it may not fit: it gets the largest
// number, which is no other answer, and leaves the room as it was.
#[unsafe(no_mangle)]
pub extern "C" fn baruvkesh_transcribe(text: &[u8], room: &mut [u8]) -> u64
    ensures { Called text.now room.old room.new result }
{
    if PLACES <= text.len() as u64 {
        return u64::MAX;
    }
    let typed = transcript::transcribe(text, room);
    (transcript::number_of(typed) as u64) * PLACES + (transcript::place_of(typed) as u64)
}

// The answer's number × 2^32 plus its place.
#[unsafe(no_mangle)]
pub extern "C" fn baruvkesh_reason(sheet: &[u8], room: &mut [u8]) -> u64
    ensures { Reasoned sheet.now room.old room.new (result / places) (result % places) }
{
    let reply = reason::reason(sheet, room);
    (reply.number() as u64) * PLACES + (reply.place() as u64)
}

// The answer's number × 2^32 plus its place. The steps are bytes, as a reason record has them.
#[unsafe(no_mangle)]
pub extern "C" fn baruvkesh_survey(sheet: &[u8], list: &[u8], steps: &[u8]) -> u64
    ensures { Recited sheet.now list.now steps.now (result / places) (result % places) }
{
    let told = recited::check(sheet, list, steps);
    (told.number() as u64) * PLACES + (told.place() as u64)
}
