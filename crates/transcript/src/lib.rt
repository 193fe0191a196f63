// The call for typed sheets: a text's bytes in, its version 1 sheet out, for any bytes and any room.
// It rests on the lines' reader and on the sheet's writer, and joins them.
// Its promise is one record (specs/Transcribed.antt); proofs/ shows that the reply is one only, that the panel never sends back a sheet that
// it wrote, and that a printed text gives its own sheet.
#![tactic(auto)]

ghost use Rattle.std.specs.Prelude.{◌≡◌};
ghost use Rattle.transcript.specs.Transcribed.{number_of, place_of, Transcribed};

use met::MEMORY;
use slips::Slip;

// The room that every sheet fits in.
pub const ROOM: usize = sheet::LONGEST;

// What the call says of a text: the length of its sheet in the room, or what is wrong.
pub type Typed = Result<usize, Slip>;

// Document 02's number of an answer, which is 0 for a sheet.
pub fn number_of(typed: Typed) -> u8
    ensures { result ≡ number_of typed }
{
    match typed {
        Ok(_) => 0,
        Err(slip) => slip.number(),
    }
}

// And its place, which is the length for a sheet.
pub fn place_of(typed: Typed) -> usize
    ensures { result ≡ place_of typed }
{
    match typed {
        Ok(size) => size,
        Err(slip) => slip.place(),
    }
}

// Reads the text, and writes its sheet to the first bytes of the room unless the text is refused.
pub fn transcribe(text: &[u8], room: &mut [u8]) -> Typed
    ensures { Transcribed text.now room.old room.new (number_of result) (place_of result) }
{
    if room.len() < ROOM {
        return Err(Slip::Room);
    }
    let mut m = [0usize; MEMORY];
    let (_, l) = lines::text(text, &mut m)?;
    Ok(drafting::sheet(&m, l, room))
}
