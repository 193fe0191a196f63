// Equalities passed on: terms of one input are tied, until a pass over all terms finds nothing new.
// It rests on the groups, and promises a saturated table that whatever met the old one and gives equal inputs equal answers meets too, or
// that nothing does.
#![tactic(auto)]

ghost use Rattle.std.specs.Prelude.{◌≡◌, length};
ghost use Rattle.closure.specs.Table.{Table};
ghost use Rattle.cells.specs.Cells.{cells, cell};
ghost use Rattle.settled.specs.Settled.{points};
ghost use Rattle.pairs.specs.Passing.{FunctionsPut, AllTied, Passing};

use pairs::Clash;
use reading::Sheet;
use sheet::TermNumber;

// Passes equalities until a pass finds nothing new.
pub fn settle(sheet: &Sheet, d: &mut [u32]) -> bool
    requires d_len { (length d.old ≡ cells) × Table (points sheet.now) (cell d.old) }
    ensures { FunctionsPut sheet.now d.old d.new result }
{
    // A loop: how many passes it takes is not known before it runs.
    loop {
        match pass(sheet, d) {
            Ok(true) => {}
            Ok(false) => return true,
            Err(Clash) => return false,
        }
    }
}

// One pass over the terms: whether it tied something.
fn pass(sheet: &Sheet, d: &mut [u32]) -> Result<bool, Clash>
    requires d_len { (length d.old ≡ cells) × Table (points sheet.now) (cell d.old) }
    ensures { Passing sheet.now (AllTied sheet.now) d.old d.new result }
{
    let mut keys = [0u64; sheet::MAX_TERMS];
    let mut fresh = false;
    for i in 0..sheet.count_terms() {
        fresh |= groups::pass_term(sheet, &mut keys, d, TermNumber(i as u8))?;
    }
    Ok(fresh)
}
