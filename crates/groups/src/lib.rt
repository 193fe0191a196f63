// A term tied to those before it that have its input: the keys of the terms are kept in order, so that these stand together.
// It rests on the keys (roots), their order (sorted) and the pairs, and promises of a term what a pass promises of all, where the keys of
// the terms before it are listed (specs/Listed.antt).
#![tactic(auto)]

ghost use Rattle.std.specs.Prelude.{◌≡◌, ℕ, ◌+◌, ◌<◌, length, get_or};
ghost use Rattle.closure.specs.Table.{Table};
ghost use Rattle.cells.specs.Cells.{cells, cell};
ghost use Rattle.sheet.specs.Limits.{max_terms};
ghost use Rattle.sheet.specs.Sheet.{count_terms};
ghost use Rattle.settled.specs.Settled.{points};
ghost use Rattle.sorted.specs.Inserted.{Ascending};
ghost use Rattle.pairs.specs.Passing.{Passing};
ghost use Rattle.groups.specs.Listed.{GroupTied, TermPassed, KeyPut};

use pairs::Clash;
use reading::Sheet;
use sheet::TermNumber;

// Puts term i's key in among those of the terms before it, where those that have its input stand right below it. Answers whether it tied
// some of them to the term.
pub fn pass_term(
    sheet: &Sheet,
    keys: &mut [u64],
    d: &mut [u32],
    i: TermNumber,
) -> Result<bool, Clash>
    requires i_bound { i.0 < count_terms sheet.now }
    requires keys_len { (length keys.old ≡ max_terms) × Ascending i.0 keys.old }
    requires d_len { (length d.old ≡ cells) × Table (points sheet.now) (cell d.old) }
    ensures passing { Passing sheet.now (TermPassed sheet.now i.0 keys.old) d.old d.new result }
    ensures put { KeyPut sheet.now i.0 keys.old keys.new (cell d.old) }
{
    sheet.formed();
    let key = roots::key_at(sheet, d, i);
    let place = sorted::insert(keys, i.0 as usize, 256 * key + i.0 as u64);
    if key == 0 {
        return Ok(false);
    }
    pass_group(sheet, keys, d, i, place, 256 * key)
}

// Term i with those below its place whose keys aren't below the least that its input has.
fn pass_group(
    sheet: &Sheet,
    keys: &[u64],
    d: &mut [u32],
    i: TermNumber,
    place: usize,
    least: u64,
) -> Result<bool, Clash>
    requires i_bound { i.0 < count_terms sheet.now }
    requires place_in_bounds { (place < length keys.now) × Ascending place keys.now × ((q : ℕ) → q < place → get_or keys.now q 0 < least + i.0) }
    requires d_len { (length d.old ≡ cells) × Table (points sheet.now) (cell d.old) }
    ensures { Passing sheet.now (GroupTied sheet.now i.0 keys.now least place) d.old d.new result }
{
    let mut fresh = false;
    for q in sorted::first_from(keys, place, least)..place {
        fresh |= pairs::pass_pair(sheet, d, i, TermNumber((keys[q] - least) as u8))?;
    }
    Ok(fresh)
}
