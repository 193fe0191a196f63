// The bytes of a sheet (specs/Written.antt), the way back from the abstract sheet.
// It rests on the sheet's definitions, on big numbers and on the table of refusals, and has no code.
// proofs/ shows that they decode to the sheet, and that the panel doesn't send them back.
#![tactic(auto)]
