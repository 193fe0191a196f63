// The lowest term whose symbol an earlier term uses with the other count of arguments: the place that row 16 of the refusal table gives.
// It rests on the grounds for refusal. One pass over the terms, with a mark for each symbol.
#![tactic(auto)]

ghost use Rattle.std.specs.Prelude.{MatchOption};
ghost use Rattle.sheet.specs.Decode.{Sized, stated_terms, sheet_of};
ghost use Rattle.grounds.specs.Found.{NoneWrong, LowestWrong};
ghost use Rattle.grounds.specs.Rows.{other_count_in};

use sheet::TermNumber;

// A mark is the kind of the terms so far that use its symbol, or 0; terms of other kinds than 3 and 4 use none.
pub fn other_count(sheet: &[u8]) -> Option<TermNumber>
    requires { Sized sheet.now }
    ensures { MatchOption result (NoneWrong (stated_terms sheet.now) (other_count_in (sheet_of sheet.now))) (λ i. LowestWrong (stated_terms sheet.now) (other_count_in (sheet_of sheet.now)) i.0) }
{
    let mut marks = [0u8; 256];
    for i in 0..sheet[3] {
        let at = 6 + 6 * (i as usize);
        let kind = sheet[at];
        if (kind == 3) | (kind == 4) {
            let symbol = sheet[at + 1] as usize;
            let used = marks[symbol];
            if (used != 0) & (used != kind) {
                return Some(TermNumber(i));
            }
            marks[symbol] = kind;
        }
    }
    None
}
