// What the call promises: document 01's number and place of an answer, and what stands in the answer room, in one record (specs/Answered.antt).
// It rests on the refusal table, the meaning and the answer record, and knows nothing of how a sheet is judged.
// proofs/ shows that a reply which keeps the promise is unique but for the values, and more of what follows from it.
#![tactic(auto)]

ghost use Rattle.std.specs.Prelude.{◌≡◌};
ghost use Rattle.promise.specs.Answered.{number_of, place_of};

use refusal::Refusal;

// What the call says of a sheet. Holds and Clashes have the length of the record in the answer room.
#[derive(Clone, Copy)]
pub enum Answer {
    Holds(u16),
    Clashes(u16),
    Refused(Refusal),
}

impl Answer {
    pub fn number(self) -> u8
        ensures { result ≡ number_of self }
    {
        match self {
            Answer::Holds(_) => 0,
            Answer::Clashes(_) => 1,
            Answer::Refused(why) => why.number(),
        }
    }

    pub fn place(self) -> u16
        ensures { result ≡ place_of self }
    {
        match self {
            Answer::Holds(size) => size,
            Answer::Clashes(size) => size,
            Answer::Refused(why) => why.place() as u16,
        }
    }
}
