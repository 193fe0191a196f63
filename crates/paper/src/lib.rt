// The reason record as code writes it: its head, its list, and its steps one behind the other.
// It rests on big's way of writing numbers, on listing's list and on the writer's memory (sketch), and promises the record's bytes
// (specs/Record.antt) and that the rest of the room is as it was.
#![tactic(auto)]

ghost use Rattle.std.specs.Prelude.{◌≡◌, true, ◌∷◌, ℕ, ◌+◌, ◌*◌, ◌^◌, ◌≤◌, ◌<◌, length, get_or};
ghost use Rattle.big.specs.Big.{signed_of};
ghost use Rattle.order.specs.First.{marked};
ghost use Rattle.sheet.specs.Limits.{max_terms};
ghost use Rattle.sketch.specs.Sketch.{place, ending, bound_named, walk_at, how_of, left_of, right_of, steps_of, tie_step};
ghost use Rattle.reasons.specs.Step.{by_walks, closing_walk};
ghost use Rattle.reasons.specs.Pruned.{rank, pruned};
ghost use Rattle.paper.specs.Record.{head_length, step_length, head_bytes, kind_number, KindOf, step_head, step_bytes, steps_bytes, bound_bytes, walk_bytes};
ghost use Rattle.paper.specs.Written.{Appended, Lists, ranked_bound, ranked_walk, Ranked, Nameable, Readable};

use sketch::{ENDING, PLACE, TIE};

// The kinds of steps, each with its number in a record.
#[derive(Clone, Copy, Debug, PartialEq, Eq)]
pub enum StepKind {
    ByWalks = 0,
    ByFunctions = 1,
    ClosingWalk = 2,
    ClosingEntry = 3,
}

// A number that no kind of step has.
#[derive(Clone, Copy, Debug, PartialEq, Eq)]
pub struct UnknownKind(pub u8);

impl TryFrom<u8> for StepKind {
    type Error = UnknownKind;

    ghost try_from_gives = { KindOf };

    fn try_from(number: u8) -> Result<Self, UnknownKind> {
        match number {
            0 => Ok(StepKind::ByWalks),
            1 => Ok(StepKind::ByFunctions),
            2 => Ok(StepKind::ClosingWalk),
            3 => Ok(StepKind::ClosingEntry),
            _ => Err(UnknownKind(number)),
        }
    }
}

// The bytes of a record's head, of a step without its bounds, and of the longest step.
pub const HEAD: usize = 10;

const STEP: usize = 13;

const LONGEST: usize = STEP + 4 * (sheet::MAX_TERMS + 1);

// The room that is always enough.
pub const ROOM: usize = HEAD + sheet::MAX_ENTRIES + (sheet::MAX_TERMS + 1) * LONGEST;

// Writes the numbers of the marked entries below n behind the head, and answers how many there are.
pub fn list(room: &mut [u8], marks: &[bool], n: usize) -> usize
    requires { (n ≤ length marks.now) × (head_length + n ≤ length room.old) × (n ≤ 256) }
    ensures { Lists n (marked marks.now) room.old room.new head_length result }
{
    listing::list(room, HEAD, marks, n)
}

// The head of a record of size bytes.
pub fn head(room: &mut [u8], size: usize, ties: usize, k: usize, steps: usize)
    requires { (head_length ≤ length room.old) × (size < 256 ^ 4) × (ties < 256) × (k < 65536) × (steps < 65536) }
    ensures { Appended room.old room.new 0 head_length (head_bytes size ties k steps) }
{
    big::write(room, 0, 4, size as u64);
    room[4] = 1;
    room[5] = ties as u8;
    big::write(room, 6, 2, k as u64);
    big::write(room, 8, 2, steps as u64);
}

// The ranks of the first count ties among those that are needed, and how many are.
pub fn rank(need: &[bool], count: usize, ranks: &mut [u8]) -> usize
    requires { (count ≤ length need.now) × (count ≤ length ranks.old) × (count < 256) }
    ensures answer { result ≡ rank (marked need.now) count }
    ensures ranks { Ranked (marked need.now) ranks.new count }
    ensures kept { (u : ℕ) → count ≤ u → get_or ranks.new u 0 ≡ get_or ranks.old u 0 }
{
    let mut k = 0;
    for t in 0..count {
        ranks[t] = k as u8;
        if need[t] {
            k += 1;
        }
    }
    k
}

// The steps of the needed ones of the first count ties.
pub fn ties(
    room: &mut [u8],
    from: usize,
    ties: &[u32],
    count: usize,
    need: &[bool],
    names: &[u16],
    ranks: &[u8],
    walks: &[u16],
) -> usize
    requires step_length_in_bounds { (from + count * step_length ≤ length room.old) × (count ≤ max_terms) × (count ≤ length ties.now) × (count ≤ length need.now) × (count ≤ length ranks.now) }
    requires ranked { Ranked (marked need.now) ranks.now count }
    requires by_index { (t : ℕ) → t < count → marked need.now t ≡ true → 0 < how_of (get_or ties.now t 0) → Readable t names.now walks.now (2 * t) × Readable t names.now walks.now (2 * t + 1) }
    ensures steps { Appended room.old room.new from result (steps_bytes (pruned (marked need.now) (steps_of names.now ties.now walks.now count))) }
    ensures short { result ≤ from + rank (marked need.now) count * step_length }
{
    let mut at = from;
    for t in 0..count {
        if need[t] {
            at = tie(room, at, t, ties[t], names, ranks, walks);
        }
    }
    at
}

// The step of tie t.
fn tie(
    room: &mut [u8],
    from: usize,
    t: usize,
    tie: u32,
    names: &[u16],
    ranks: &[u8],
    walks: &[u16],
) -> usize
    requires step_length_in_bounds { (from + step_length ≤ length room.old) × (t ≤ max_terms) × (t ≤ length ranks.now) }
    requires readable { 0 < how_of tie → Readable t names.now walks.now (2 * t) × Readable t names.now walks.now (2 * t + 1) }
    ensures step { Appended room.old room.new from result (step_bytes (tie_step (how_of tie) (left_of tie) (right_of tie) (ranked_walk ranks.now (walk_at names.now walks.now (2 * t))) (ranked_walk ranks.now (walk_at names.now walks.now (2 * t + 1))))) }
    ensures short { result ≤ from + step_length }
{
    let a = sketch::left(tie) as u8;
    let b = sketch::right(tie) as u8;
    if sketch::how(tie) == 0 {
        return step(room, from, StepKind::ByFunctions as u8, a, b, 0, 0, 0);
    }
    by_walks(room, from, a, b, 0, names, ranks, walks, 2 * t)
}

// A tie by the walks at two places, a = b + c; c is two's complement.
pub fn by_walks(
    room: &mut [u8],
    from: usize,
    a: u8,
    b: u8,
    c: u64,
    names: &[u16],
    ranks: &[u8],
    walks: &[u16],
    at: usize,
) -> usize
    requires { (from + step_length ≤ length room.old) × Readable (length ranks.now) names.now walks.now at × Readable (length ranks.now) names.now walks.now (at + 1) }
    ensures step { Appended room.old room.new from result (step_bytes (by_walks a b (signed_of 8 c) (ranked_walk ranks.now (walk_at names.now walks.now at)) (ranked_walk ranks.now (walk_at names.now walks.now (at + 1))))) }
    ensures short { result ≤ from + step_length }
{
    let first = walks[at * PLACE] as u8;
    let second = walks[(at + 1) * PLACE] as u8;
    let there = step(room, from, StepKind::ByWalks as u8, a, b, c, first, second);
    let back = walk(room, there, names, ranks, walks, at);
    walk(room, back, names, ranks, walks, at + 1)
}

// The closing walk from a: over bound e, and then over the walk of the ending.
pub fn round(
    room: &mut [u8],
    from: usize,
    a: u8,
    e: usize,
    names: &[u16],
    ranks: &[u8],
    walks: &[u16],
) -> usize
    requires step_length_in_bounds { (from + step_length ≤ length room.old) × Readable (length ranks.now) names.now walks.now ending × (get_or walks.now (ending * place) 0 ≤ max_terms) }
    requires e_in_bounds { (e < length names.now) × Nameable (length ranks.now) (get_or names.now e 0) }
    ensures step { Appended room.old room.new from result (step_bytes (closing_walk a (ranked_bound ranks.now (bound_named (get_or names.now e 0)) ∷ ranked_walk ranks.now (walk_at names.now walks.now ending)))) }
    ensures short { result ≤ from + step_length }
{
    let behind = walks[ENDING * PLACE];
    let at = step(
        room,
        from,
        StepKind::ClosingWalk as u8,
        a,
        0,
        0,
        behind as u8 + 1,
        0,
    );
    let then = bound(room, at, names[e], ranks);
    walk(room, then, names, ranks, walks, ENDING)
}

// A step without its bounds, of the kind with this number; c is two's complement.
pub fn step(
    room: &mut [u8],
    at: usize,
    kind: u8,
    a: u8,
    b: u8,
    c: u64,
    first: u8,
    second: u8,
) -> usize
    requires { at + 13 ≤ length room.old }
    ensures { Appended room.old room.new at result (step_head kind a b (signed_of 8 c) first second) }
{
    room[at] = kind;
    room[at + 1] = a;
    room[at + 2] = b;
    big::write(room, at + 3, 8, c);
    room[at + 11] = first;
    room[at + 12] = second;
    at + STEP
}

// The bounds of the walk at a place.
fn walk(
    room: &mut [u8],
    from: usize,
    names: &[u16],
    ranks: &[u8],
    walks: &[u16],
    at: usize,
) -> usize
    requires { (from + 2 * get_or walks.now (at * place) 0 ≤ length room.old) × Readable (length ranks.now) names.now walks.now at }
    ensures { Appended room.old room.new from result (walk_bytes (ranked_walk ranks.now (walk_at names.now walks.now at))) }
{
    let first = at * PLACE + 1;
    let k = walks[at * PLACE] as usize;
    let mut end = from;
    for x in 0..k {
        let e = walks[first + x] as usize;
        end = bound(room, end, names[e], ranks);
    }
    end
}

// A bound, a tie by its rank.
fn bound(room: &mut [u8], at: usize, name: u16, ranks: &[u8]) -> usize
    requires { (at + 2 ≤ length room.old) × Nameable (length ranks.now) name }
    ensures { Appended room.old room.new at result (bound_bytes (ranked_bound ranks.now (bound_named name))) }
{
    let number = (name % 256) as u8;
    room[at] = (name / 256) as u8;
    room[at + 1] = if TIE <= name {
        ranks[number as usize]
    } else {
        number
    };
    at + 2
}
