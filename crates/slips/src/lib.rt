// What is wrong with a typed text: document 02's refusals 20 to 24, as definitions over the print of texts (specs/Slips.antt), and the
// answer that names one.
// It rests on the text's form and on the numbering of its terms.
// proofs/ shows that a text has one first slip at most, and which bytes have none before them.
#![tactic(auto)]

ghost use Rattle.std.specs.Prelude.{◌≡◌};
ghost use Rattle.slips.specs.Says.{number_of, place_of};

#[derive(Clone, Copy, Debug, PartialEq, Eq)]
pub enum Slip {
    Form(usize),
    Deep(usize),
    Range(usize),
    Full(usize),
    Room,
}

// What a reader finds: the place behind it, and its number; or what is wrong.
pub type Found = Result<(usize, usize), Slip>;

impl Slip {
    pub fn number(self) -> u8
        ensures { result ≡ number_of self }
    {
        match self {
            Slip::Form(_) => 20,
            Slip::Deep(_) => 21,
            Slip::Range(_) => 22,
            Slip::Full(_) => 23,
            Slip::Room => 24,
        }
    }

    pub fn place(self) -> usize
        ensures { result ≡ place_of self }
    {
        match self {
            Slip::Form(p) | Slip::Deep(p) | Slip::Range(p) | Slip::Full(p) => p,
            Slip::Room => 0,
        }
    }
}
