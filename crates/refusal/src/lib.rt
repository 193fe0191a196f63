// When the panel sends a sheet back: the refusal table as code, equal to the table of grounds for any bytes and any answer room.
// It rests on the tests of its rows and on the lowest places, and puts them in order.
#![tactic(auto)]

ghost use Rattle.std.specs.Prelude.{◌≡◌};
ghost use Rattle.grounds.specs.Table.{refusal};
ghost use Rattle.refusal.specs.Says.{check_says, number_of, place_of};

use sheet::{EntryNumber, TermNumber};

#[derive(Clone, Copy)]
pub enum Refusal {
    Length,
    Version,
    Shape,
    WrongTerm(TermNumber),
    WrongEntry(EntryNumber),
    Room,
}

impl Refusal {
    pub fn number(self) -> u8
        ensures { result ≡ number_of self }
    {
        match self {
            Refusal::Length => 10,
            Refusal::Version => 11,
            Refusal::Shape => 12,
            Refusal::WrongTerm(_) => 13,
            Refusal::WrongEntry(_) => 14,
            Refusal::Room => 15,
        }
    }

    pub fn place(self) -> u8
        ensures { result ≡ place_of self }
    {
        match self {
            Refusal::Length => 0,
            Refusal::Version => 0,
            Refusal::Shape => 0,
            Refusal::WrongTerm(i) => i.0,
            Refusal::WrongEntry(e) => e.0,
            Refusal::Room => 0,
        }
    }
}

// What the table says of these bytes and an answer room of this length.
pub fn check(sheet: &[u8], room: usize) -> Result<(), Refusal>
    ensures { check_says result ≡ refusal sheet.now room }
{
    if rows::wrong_length(sheet) {
        return Err(Refusal::Length);
    }
    if sheet[2] != 1 {
        return Err(Refusal::Version);
    }
    if rows::wrong_shape(sheet) {
        return Err(Refusal::Shape);
    }
    if let Some(i) = lowest::wrong_term(sheet) {
        return Err(Refusal::WrongTerm(i));
    }
    if let Some(e) = lowest::wrong_entry(sheet) {
        return Err(Refusal::WrongEntry(e));
    }
    if room < sheet::ROOM_NEEDED {
        Err(Refusal::Room)
    } else {
        Ok(())
    }
}
