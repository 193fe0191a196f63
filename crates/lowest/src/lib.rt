// The lowest term of a sheet that is wrong, and the lowest entry: the places that the refusal table gives.
// It rests on the rows' tests of one record and on the sheet's fields.
#![tactic(auto)]

ghost use Rattle.std.specs.Prelude.{MatchOption};
ghost use Rattle.sheet.specs.Decode.{Sized, stated_terms, stated_entries};
ghost use Rattle.grounds.specs.Found.{NoneWrong, LowestWrong};
ghost use Rattle.grounds.specs.Rows.{wrong_term_of, wrong_entry_of};

use sheet::{EntryNumber, TermNumber};

// The lowest term that is wrong, where one is.
pub fn wrong_term(sheet: &[u8]) -> Option<TermNumber>
    requires { Sized sheet.now }
    ensures { MatchOption result (NoneWrong (stated_terms sheet.now) (wrong_term_of sheet.now)) (λ i. LowestWrong (stated_terms sheet.now) (wrong_term_of sheet.now) i.0) }
{
    for i in 0..sheet[3] {
        let own = TermNumber(i);
        if rows::wrong_term(own, reading::fields_at(sheet, 6 + 6 * (i as usize))) {
            return Some(own);
        }
    }
    None
}

// The lowest entry that is wrong, where one is.
pub fn wrong_entry(sheet: &[u8]) -> Option<EntryNumber>
    requires { Sized sheet.now }
    ensures { MatchOption result (NoneWrong (stated_entries sheet.now) (wrong_entry_of sheet.now)) (λ e. LowestWrong (stated_entries sheet.now) (wrong_entry_of sheet.now) e.0) }
{
    let terms = sheet[3];
    let first = 6 + 6 * (terms as usize);
    for e in 0..sheet[4] {
        if rows::wrong_entry(terms, reading::fields_at(sheet, first + 6 * (e as usize))) {
            return Some(EntryNumber(e));
        }
    }
    None
}
