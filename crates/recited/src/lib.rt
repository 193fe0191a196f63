// Steps read from bytes, as a reason record has them, and the check of a reason that is lent so.
// It rests on the surveyor's check, and promises its answer for the steps that the bytes say (specs/Recited.antt): one whose bytes end within
// it says nothing and is wrong.
#![tactic(auto)]

ghost use Rattle.std.specs.Prelude.{◌≡◌, ◌+◌, ◌*◌, ◌≤◌, length};
ghost use Rattle.surveyor.specs.Surveyed.{number_of, place_of};
ghost use Rattle.meaning.specs.Decides.{Decides};
ghost use Rattle.recited.specs.Recited.{step_head, longest, size_at, Whole, row_at, record_from, blank_of, Recited};
ghost use Rattle.recited.specs.Recited.{head_length, list_end, Steps, IsRecord};
ghost use Rattle.recited.specs.Reading.{most, Firsts, Counts, Ends, From};

use stated::{Step, WALK};
use surveyor::Survey;

// The bytes of a record's head, of a step without its bounds, and of a step with the longest walks that it can count.
pub const HEAD: usize = 10;

pub const STEP: usize = 13;

pub const LONGEST: usize = STEP + 4 * 255;

// As many steps as an answer can depend on: T ties at most are right, a step behind them closes, and one may stand behind that.
pub const STEPS: usize = sheet::MAX_TERMS + 2;

// As many as most reasons have. An array costs what it has room for, and that of all steps more than a short check does.
const FEW: usize = 8;

// The kind of a step that isn't whole, which stands as a record like each other, for the check to find wrong. There is none of that number.
const TORN: u8 = 255;

pub fn check(sheet: &[u8], list: &[u8], bytes: &[u8]) -> Survey
    ensures { Recited sheet.now list.now bytes.now (number_of result) (place_of result) }
{
    let count = counted(bytes);
    if count <= FEW {
        check_up_to::<FEW>(sheet, list, bytes, count)
    } else {
        check_up_to::<STEPS>(sheet, list, bytes, count)
    }
}

// The check of a reason with room for N steps.
fn check_up_to<const N: usize>(sheet: &[u8], list: &[u8], bytes: &[u8], count: usize) -> Survey
    requires { Counts bytes.now count × (count ≤ N) × (N ≤ most) }
    ensures { Recited sheet.now list.now bytes.now (number_of result) (place_of result) }
{
    let steps: [Step; N] = first_steps(bytes);
    surveyor::check(sheet, list, &steps[..count])
}

// The first steps that the bytes say, and blank ones behind them.
fn first_steps<const N: usize>(bytes: &[u8]) -> [Step; N]
    requires { N ≤ most }
    ensures { Firsts N bytes.now result }
{
    let mut steps = [blank(0); N];
    let mut at = 0;
    for n in 0..N {
        if at == bytes.len() {
            break;
        }
        steps[n] = step_from(bytes, at);
        at = end(bytes, at);
    }
    steps
}

// How many steps the bytes say, up to as many as are read.
fn counted(bytes: &[u8]) -> usize
    ensures { Counts bytes.now result }
{
    let mut at = 0;
    for n in 0..STEPS {
        if at == bytes.len() {
            return n;
        }
        at = end(bytes, at);
    }
    STEPS
}

// Where the step that begins at `at` ends, all of it or what there is.
fn end(bytes: &[u8], at: usize) -> usize
    requires { at ≤ length bytes.now }
    ensures { Ends bytes.now at result }
{
    if whole(bytes, at) {
        at + size(bytes, at)
    } else {
        bytes.len()
    }
}

fn whole(bytes: &[u8], at: usize) -> bool
    requires { at ≤ length bytes.now }
    ensures { Decides (Whole bytes.now at) result }
{
    if bytes.len() - at < STEP {
        return false;
    }
    size(bytes, at) <= bytes.len() - at
}

// The bytes of the step that begins at `at`, as its head says.
pub fn size(bytes: &[u8], at: usize) -> usize
    requires { at + step_head ≤ length bytes.now }
    ensures { (result ≡ size_at bytes.now at) × (step_head ≤ result) × (result ≤ longest) }
{
    STEP + bounds_size(bytes[at + 11]) + bounds_size(bytes[at + 12])
}

// The bytes of so many bounds.
fn bounds_size(count: u8) -> usize
    ensures { (result ≡ 2 * count) × (result ≤ 2 * 255) }
{
    2 * count as usize
}

fn step_from(bytes: &[u8], at: usize) -> Step
    requires { at ≤ length bytes.now }
    ensures { From bytes.now at result }
{
    if whole(bytes, at) {
        whole_from(bytes, at)
    } else {
        blank(TORN)
    }
}

fn whole_from(bytes: &[u8], at: usize) -> Step
    requires { Whole bytes.now at }
    ensures { result ≡ record_from bytes.now at }
{
    let first = bytes[at + 11];
    let second = bytes[at + 12];
    Step {
        kind: bytes[at],
        a: bytes[at + 1],
        b: bytes[at + 2],
        c: big::read(bytes, at + 3, 8),
        first,
        second,
        there: bounds(bytes, at + STEP, first),
        back: bounds(bytes, at + STEP + bounds_size(first), second),
    }
}

// So many bounds, two bytes each, as far as a walk has room.
fn bounds(bytes: &[u8], at: usize, count: u8) -> [u16; 129]
    requires { at + 2 * count ≤ length bytes.now }
    ensures { result ≡ row_at bytes.now at count }
{
    let mut row = [0u16; 129];
    for x in 0..usize::from(count).min(WALK) {
        row[x] = big::read(bytes, at + 2 * x, 2) as u16;
    }
    row
}

fn blank(kind: u8) -> Step
    ensures { result ≡ blank_of kind }
{
    Step {
        kind,
        a: 0,
        b: 0,
        c: 0,
        first: 0,
        second: 0,
        there: [0u16; 129],
        back: [0u16; 129],
    }
}

// Whether bytes are a reason record: the stated length, 1, and behind the list as many whole steps as are stated, of which as many tie.
pub fn is_record(record: &[u8]) -> bool
    ensures { Decides (IsRecord «record».now) result }
{
    if record.len() < HEAD {
        return false;
    }
    if big::read(record, 0, 4) != record.len() as u64 || record[4] != 1 {
        return false;
    }
    let first = list_end(record);
    if record.len() < first {
        return false;
    }
    has_steps(record, first, big::read(record, 8, 2), record[5])
}

// Where the list of a record ends, and its steps begin.
pub fn list_end(record: &[u8]) -> usize
    requires { head_length ≤ length «record».now }
    ensures { result ≡ list_end «record».now }
{
    HEAD + big::read(record, 6, 2) as usize
}

// Whether the bytes from `first` on are so many whole steps, of which so many tie.
fn has_steps(record: &[u8], first: usize, count: u64, ties: u8) -> bool
    requires { first ≤ length «record».now }
    ensures { Decides (Steps «record».now first count ties) result }
{
    let mut at = first;
    let mut found: usize = 0;
    for _ in 0..count {
        if !whole(record, at) {
            return false;
        }
        if record[at] < 2 {
            found += 1;
        }
        at = end(record, at);
    }
    at == record.len() && found == ties as usize
}
