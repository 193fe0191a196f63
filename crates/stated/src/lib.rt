// A step of a reason as anybody states it: a record in memory, with its walks as rows of numbers, and a lent list of such records.
// It rests on the rules' steps, and says which step a record means and when its fields have the form that a step has (specs/Said.antt).
#![tactic(auto)]

ghost use Rattle.std.specs.Prelude.{◌≡◌, ◌<◌, length};
ghost use Rattle.stated.specs.Said.{record_at};

// The most bounds that a walk of any sheet may have.
pub const WALK: usize = sheet::MAX_TERMS + 1;

// `c` is two's complement. `first` and `second` are the numbers of bounds of the two walks; what stands behind so many in `there` and
// `back` says nothing. A bound is its kind times 256, and a number. Kinds are numbers, since anybody may state any.
#[derive(Clone, Copy)]
pub struct Step {
    pub kind: u8,
    pub a: u8,
    pub b: u8,
    pub c: u64,
    pub first: u8,
    pub second: u8,
    pub there: [u16; 129],
    pub back: [u16; 129],
}

// How many steps there are.
pub fn count(steps: &[Step]) -> usize
    ensures { result ≡ length steps.now }
{
    steps.len()
}

// The step at n.
pub fn step_at(steps: &[Step], n: usize) -> Step
    requires { n < length steps.now }
    ensures { result ≡ record_at steps.now n }
{
    steps[n]
}
