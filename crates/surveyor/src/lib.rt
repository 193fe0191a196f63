// The surveyor's own check: a sheet, a list of entries and a reason from anybody in, and out whether the reason shows that they clash.
// It rests on the sheet's refusals, on the rules for reasons and on a check of one step by value; it knows nothing of the panel's search, its
// tables or its writer. Its promise is one record (specs/Surveyed.antt).
#![tactic(auto)]

ghost use Rattle.std.specs.Prelude.{◌≡◌, false, ◌≤◌, length, replicate};
ghost use Rattle.order.specs.First.{marked, Agree};
ghost use Rattle.sheet.specs.Decode.{sheet_of};
ghost use Rattle.meaning.specs.Decides.{Decides};
ghost use Rattle.surveyor.specs.declared.Survey.TheVariants.{Refused};
ghost use Rattle.surveyor.specs.Surveyed.{number_of, place_of, Surveyed};
ghost use Rattle.surveyor.specs.Inside.{RisesSays, ReadySays, Begun, Ended, Answers, TiesLaid};

use legs::LEGS;
use links::LINKS;
use reading::Sheet;
use refusal::Refusal;
use routes::PATHS;
use stated::Step;
use upheld::Ruling;

#[derive(Clone, Copy)]
pub enum Survey {
    Refused(Refusal),
    NoList,
    Yes,
    Wrong(u8),
}

impl From<Refusal> for Survey {
    ghost from_gives = { λ why told. told ≡ Refused why };

    fn from(why: Refusal) -> Survey {
        Self::Refused(why)
    }
}

impl Survey {
    pub fn number(self) -> u8
        ensures { result ≡ number_of self }
    {
        match self {
            Survey::Refused(why) => why.number(),
            Survey::NoList => 27,
            Survey::Yes => 0,
            Survey::Wrong(_) => 1,
        }
    }

    pub fn place(self) -> u8
        ensures { result ≡ place_of self }
    {
        match self {
            Survey::Refused(why) => why.place(),
            Survey::NoList => 0,
            Survey::Yes => 0,
            Survey::Wrong(n) => n,
        }
    }
}

pub fn check(sheet: &[u8], list: &[u8], steps: &[Step]) -> Survey
    ensures { Surveyed sheet.now list.now steps.now (number_of result) (place_of result) }
{
    let mut listed = [false; 256];
    let mut legs = [0u64; LEGS];
    match prepare(sheet, list, &mut listed, &mut legs) {
        Ok(()) => go_through(sheet, &listed, &mut legs, steps),
        Err(told) => told,
    }
}

// Marks the entries of the list and lays the legs of terms and entries, unless the sheet is refused or the list is none.
fn prepare(sheet: &[u8], list: &[u8], listed: &mut [bool], legs: &mut [u64]) -> Result<(), Survey>
    requires { (listed.old ≡ replicate 256 false) × (legs.old ≡ replicate 768 0) }
    ensures { ReadySays sheet.now list.now listed.new legs.new result }
{
    refusal::check(sheet, sheet::ROOM_NEEDED)?;
    if !rises(list, sheet[4], listed) {
        return Err(Survey::NoList);
    }
    legs::lay(&Sheet::of(sheet), listed, legs);
    Ok(())
}

// Whether the entry numbers rise and are below L; as far as they do, they are marked.
fn rises(list: &[u8], entries: u8, listed: &mut [bool]) -> bool
    requires { listed.old ≡ replicate 256 false }
    ensures { RisesSays entries list.now listed.new result }
{
    let mut least = 0;
    for &e in list {
        if e < least || entries <= e {
            return false;
        }
        listed[e as usize] = true;
        least = e + 1;
    }
    true
}

// Step by step, up to the first that is wrong or closes.
fn go_through(sheet: &[u8], listed: &[bool], legs: &mut [u64], steps: &[Step]) -> Survey
    requires { Begun sheet.now listed.now legs.old }
    ensures { Answers (sheet_of sheet.now) listed.now steps.now result × TiesLaid legs.old legs.new }
{
    let count = stated::count(steps);
    let mut links = [links::ALONE; LINKS];
    let mut paths = [0u64; PATHS];
    for n in 0..count {
        let s = stated::step_at(steps, n);
        match upheld::ruling_on(sheet, listed, legs, &links, s) {
            Ruling::Wrong => return Survey::Wrong(n as u8),
            Ruling::Closes => return close(sheet, listed, &links, &paths, steps, n),
            Ruling::Ties => upheld::note(legs, &mut links, &mut paths, n as u8, s),
        }
    }
    Survey::Wrong(count as u8)
}

// A closing step that has no step behind it, and exactly the list's entries.
fn close(
    sheet: &[u8],
    listed: &[bool],
    links: &[u64],
    paths: &[u64],
    steps: &[Step],
    n: usize,
) -> Survey
    requires { Ended sheet.now listed.now steps.now n links.now paths.now }
    ensures { Answers (sheet_of sheet.now) listed.now steps.now result }
{
    if n + 1 < stated::count(steps) {
        return Survey::Wrong(n as u8);
    }
    let mut entries = [false; 256];
    let mut walked = [0u64; 2];
    gathered::gather(sheet, steps, links, paths, n, &mut entries, &mut walked);
    if same(listed, &entries, reading::count_entries(sheet)) {
        Survey::Yes
    } else {
        Survey::Wrong(n as u8)
    }
}

// Whether the same of the first `count` entries are marked.
fn same(listed: &[bool], entries: &[bool], count: usize) -> bool
    requires { (count ≤ length listed.now) × (count ≤ length entries.now) }
    ensures { Decides (Agree count (marked listed.now) (marked entries.now)) result }
{
    listed[..count] == entries[..count]
}
