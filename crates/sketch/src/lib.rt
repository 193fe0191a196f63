// A reason as the writer keeps it in memory: ties as numbers, and walks as numbers of bounds that stand in a ledger with their names.
// It rests on the rules for reasons, and says which steps the numbers mean (specs/Sketch.antt).
#![tactic(auto)]

ghost use Rattle.std.specs.Prelude.{◌≡◌};
ghost use Rattle.sketch.specs.Sketch.{left_of, right_of, how_of};

// The names of bounds: the kind of the record times 256, and a number. Backwards is one kind more.
pub const TERM: u16 = 512;

pub const TIE: u16 = 1024;

pub const BACK: u16 = 256;

// The place of a walk: its length, and room for as many bounds as there may be points. A tie's two walks stand at twice its number, those
// of the ending behind all ties'.
pub const PLACE: usize = sheet::MAX_TERMS + 2;

pub const ENDING: usize = 2 * sheet::MAX_TERMS;

pub const WALKS: usize = (ENDING + 2) * PLACE;

// A tie's points, and how it comes: 0 by functions, else by walks over fewer bounds than this.
// That is a number and no Option: memory has one number for each tie, and specs/ says of that number what step it means.
pub fn left(tie: u32) -> usize
    ensures { result ≡ left_of tie }
{
    (tie % 256) as usize
}

pub fn right(tie: u32) -> usize
    ensures { result ≡ right_of tie }
{
    (tie / 256 % 256) as usize
}

pub fn how(tie: u32) -> usize
    ensures { result ≡ how_of tie }
{
    (tie / 65536) as usize
}
