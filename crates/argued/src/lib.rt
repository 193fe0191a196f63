// A reason argued: the bounds of a clashing list in a ledger, a table grown over it until it clashes, ties laid, what the ending rests on
// gathered, and the record written.
// It rests on the parts that do each of that, and promises the record of the list and of steps that close it, with none to spare: a list
// that clashes always has them.
#![tactic(auto)]

ghost use Rattle.std.specs.Prelude.{◌≡◌, ◌+◌, ◌*◌, ◌<◌, ◌≤◌, true, [], ◌∷◌, ◌++◌, length, slice_index};
ghost use Rattle.big.specs.Big.{signed_of};
ghost use Rattle.closure.specs.Closed.{Closed as ClosedTable};
ghost use Rattle.closure.specs.Table.{reach};
ghost use Rattle.cells.specs.Cells.{cells, cell, Kept};
ghost use Rattle.order.specs.First.{Set, marked};
ghost use Rattle.sheet.specs.Sheet.{count_entries, entry_at};
ghost use Rattle.sheet.specs.Limits.{max_terms};
ghost use Rattle.meaning.specs.Meaning.{Clashes};
ghost use Rattle.settled.specs.Settled.{points, Apart};
ghost use Rattle.ties.specs.Ties.{Broken, BrokenAt};
ghost use Rattle.reasons.specs.Step.{closing_walk};
ghost use Rattle.reasons.specs.Pruned.{rank, pruned};
ghost use Rattle.sketch.specs.Sketch.{bound_named, place, ending, walk_at, steps_of};
ghost use Rattle.drafted.specs.Drafted.{Drafted};
ghost use Rattle.drafted.specs.Ending.{path_steps, tie_steps};
ghost use Rattle.paper.specs.Record.{head_length, step_length, steps_bytes, reason_room};
ghost use Rattle.paper.specs.Written.{Appended, Ranked, Nameable, Readable};
ghost use Rattle.argued.specs.Draft.{Ready, Writable};
ghost use Rattle.argued.specs.Argued.{StepsWritten, Closed, Argued};

use layers::Bound;
use paper::StepKind;
use reading::Sheet;
use sheet::EntryNumber;
use sketch::ENDING;

// Writes the record of the entries that the marks name, which clash, and answers its length. The table is the caller's to lend.
pub fn argue(sheet: &Sheet, room: &mut [u8], marks: &[bool], d: &mut [u32]) -> usize
    requires d_len { length d.old ≡ cells }
    requires sheet_in_bounds { (count_entries sheet.now ≤ length marks.now) × (reason_room ≤ length room.old) }
    requires clashes { Clashes sheet.now (marked marks.now) }
    ensures argued { Argued sheet.now (marked marks.now) room.old room.new result }
    ensures kept { Kept (points sheet.now) d.old d.new }
{
    sheet.formed();
    let mut list = [Bound::NOWHERE; jotted::MOST];
    // The names stay a list of their own: those of ties are given only when the ties are laid, and the bounds are only lent then.
    let mut names = [0u16; jotted::MOST];
    let mut ties = [0u32; cells::STRIDE];
    let mut labels = [0u8; cells::CELLS];
    let m = ledger::list(sheet, marks, &mut list, &mut names);
    let g = grown::grow(sheet, d, &mut list, m);
    let listed = g.listed;
    let put = g.put;
    let count = laid::lay(sheet, &list, &mut names, m, listed, &mut ties, &mut labels);
    let k = paper::list(room, marks, sheet.count_entries());
    if put < listed {
        return by_round(
            sheet, room, k, &list, &names, m, listed, &ties, &labels, count, put, d,
        );
    }
    let e = broken(sheet, marks, d);
    by_entry(
        sheet, room, k, &list, &names, m, listed, &ties, &labels, count, e, d,
    )
}

// The lowest ≠ entry of the set on terms tied at exactly its c, where there is one.
fn broken(sheet: &Sheet, set: &[bool], d: &[u32]) -> EntryNumber
    requires sheet_in_bounds { (count_entries sheet.now ≤ length set.now) × (length d.now ≡ cells) }
    requires closed_table { ClosedTable (points sheet.now) (reach (points sheet.now)) (cell d.now) }
    requires fact { Apart sheet.now (marked set.now) (cell d.now) → ⊥ }
    ensures { (result.0 < count_entries sheet.now) × BrokenAt sheet.now (marked set.now) (cell d.now) result.0 }
{
    for e in 0..sheet.count_entries() {
        let entry = EntryNumber(e as u8);
        if ties::broken_at(sheet, set, d, entry) {
            return entry;
        }
    }
    unreachable!()
}

// The steps, where bound e closes a walk under zero: they close whichever list this is a draft of.
fn by_round(
    sheet: &Sheet,
    room: &mut [u8],
    k: usize,
    list: &[Bound],
    names: &[u16],
    m: usize,
    listed: usize,
    ties: &[u32],
    labels: &[u8],
    count: usize,
    e: usize,
    best: &mut [u32],
) -> usize
    requires { Ready sheet.now list.now names.now ties.now labels.now best.old room.old m listed count e k × (e < listed) }
    ensures closed { (S : Set) → Drafted sheet.now S list.now names.now ties.now labels.now m listed count → Closed sheet.now S k room.old room.new result }
    ensures kept { Kept (points sheet.now) best.old best.new }
{
    let n = sheet.count_terms() + 1;
    let mut need = [false; cells::STRIDE];
    let mut walks = [0u16; sketch::WALKS];
    needed::round(list, names, n, e, best, &mut need, &mut walks);
    need[count] = true;
    needed::gather(
        sheet, list, names, m, listed, ties, labels, count, best, &mut need, &mut walks,
    );
    write_round(room, k, ties, count, &need, names, &walks, list[e].from, e)
}

// So where entry e is a ≠ entry on terms tied at exactly its c: by the path between them, or, where the ties don't have them in one group,
// tied by walks first.
fn by_entry(
    sheet: &Sheet,
    room: &mut [u8],
    k: usize,
    list: &[Bound],
    names: &[u16],
    m: usize,
    listed: usize,
    ties: &[u32],
    labels: &[u8],
    count: usize,
    e: EntryNumber,
    best: &mut [u32],
) -> usize
    requires ready { Ready sheet.now list.now names.now ties.now labels.now best.old room.old m listed count listed k }
    requires e_bound { (e.0 < count_entries sheet.now) × Broken (cell best.old) (entry_at sheet.now e.0) }
    ensures closed { (S : Set) → S e.0 ≡ true → Drafted sheet.now S list.now names.now ties.now labels.now m listed count → Closed sheet.now S k room.old room.new result }
    ensures kept { Kept (points sheet.now) best.old best.new }
{
    let n = sheet.count_terms() + 1;
    let entry = sheet.entry_at(e);
    let a = entry.a.0 as usize;
    let b = entry.b.0 as usize;
    let mut need = [false; cells::STRIDE];
    let mut walks = [0u16; sketch::WALKS];
    if forest::together(labels, count, a, b) {
        forest::mark(labels, ties, &mut need, n, count, a, b);
        need[count] = true;
        needed::gather(
            sheet, list, names, m, listed, ties, labels, count, best, &mut need, &mut walks,
        );
        return write_path(room, k, ties, count, &need, names, &walks, e);
    }
    needed::both(
        list, names, listed, n, a, b, best, &mut need, &mut walks, ENDING,
    );
    need[count] = true;
    need[count + 1] = true;
    needed::gather(
        sheet, list, names, m, listed, ties, labels, count, best, &mut need, &mut walks,
    );
    let c = u64::from(entry.c.0).wrapping_sub(32768);
    write_tie(
        room, k, ties, count, &need, names, &walks, entry.a.0, entry.b.0, c, e,
    )
}

// The needed ties behind a list of k entries, by their ranks: how many they are, and where their steps end.
fn write_ties(
    room: &mut [u8],
    k: usize,
    ties: &[u32],
    count: usize,
    need: &[bool],
    names: &[u16],
    walks: &[u16],
    ranks: &mut [u8],
) -> (usize, usize)
    requires { Writable room.old ties.now names.now walks.now need.now k count × (count ≤ length ranks.old) }
    ensures ranked { Ranked (marked need.now) ranks.new count × (result.0 ≡ rank (marked need.now) count) × (result.0 ≤ count) }
    ensures steps { Appended room.old room.new (head_length + k) result.1 (steps_bytes (pruned (marked need.now) (steps_of names.now ties.now walks.now count))) }
    ensures short { result.1 ≤ head_length + k + result.0 * step_length }
{
    let kept = paper::rank(need, count, ranks);
    let at = paper::ties(
        room,
        paper::HEAD + k,
        ties,
        count,
        need,
        names,
        ranks,
        walks,
    );
    (kept, at)
}

// The needed ties, the closing walk from a over bound e and the walk of the ending, and the head.
fn write_round(
    room: &mut [u8],
    k: usize,
    ties: &[u32],
    count: usize,
    need: &[bool],
    names: &[u16],
    walks: &[u16],
    a: u8,
    e: usize,
) -> usize
    requires writable { Writable room.old ties.now names.now walks.now need.now k count × (marked need.now count ≡ true) }
    requires readable { Readable count names.now walks.now ending × (slice_index walks.now (ending * place) ≤ max_terms) × (e < length names.now) × Nameable count (slice_index names.now e) }
    ensures { StepsWritten k (pruned (marked need.now) (steps_of names.now ties.now walks.now count ++ closing_walk a (bound_named (slice_index names.now e) ∷ walk_at names.now walks.now ending) ∷ [])) room.old room.new result }
{
    let mut ranks = [0u8; cells::STRIDE];
    let (kept, at) = write_ties(room, k, ties, count, need, names, walks, &mut ranks);
    let end = paper::round(room, at, a, e, names, &ranks, walks);
    paper::head(room, end, kept, k, kept + 1);
    end
}

// So with a closing ≠ entry.
fn write_path(
    room: &mut [u8],
    k: usize,
    ties: &[u32],
    count: usize,
    need: &[bool],
    names: &[u16],
    walks: &[u16],
    e: EntryNumber,
) -> usize
    requires { Writable room.old ties.now names.now walks.now need.now k count × (marked need.now count ≡ true) }
    ensures { StepsWritten k (pruned (marked need.now) (path_steps names.now ties.now walks.now count e.0)) room.old room.new result }
{
    let mut ranks = [0u8; cells::STRIDE];
    let (kept, at) = write_ties(room, k, ties, count, need, names, walks, &mut ranks);
    let end = paper::step(room, at, StepKind::ClosingEntry as u8, e.0, 0, 0, 0, 0);
    paper::head(room, end, kept, k, kept + 1);
    end
}

// And with a tie of its terms before it, by the walks of the ending; c is two's complement.
fn write_tie(
    room: &mut [u8],
    k: usize,
    ties: &[u32],
    count: usize,
    need: &[bool],
    names: &[u16],
    walks: &[u16],
    a: u8,
    b: u8,
    c: u64,
    e: EntryNumber,
) -> usize
    requires writable { Writable room.old ties.now names.now walks.now need.now k count × (count < max_terms) × (marked need.now count ≡ true) × (marked need.now (count + 1) ≡ true) }
    requires readable { Readable count names.now walks.now ending × Readable count names.now walks.now (ending + 1) }
    ensures { StepsWritten k (pruned (marked need.now) (tie_steps names.now ties.now walks.now count a b (signed_of 8 c) e.0)) room.old room.new result }
{
    let mut ranks = [0u8; cells::STRIDE];
    let (kept, at) = write_ties(room, k, ties, count, need, names, walks, &mut ranks);
    let tied = paper::by_walks(room, at, a, b, c, names, &ranks, walks, ENDING);
    let end = paper::step(room, tied, StepKind::ClosingEntry as u8, e.0, 0, 0, 0, 0);
    paper::head(room, end, kept + 1, k, kept + 2);
    end
}
