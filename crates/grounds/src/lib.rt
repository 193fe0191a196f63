// The grounds on which the panel sends a sheet back: document 01's refusal table, its rows (specs/Rows.antt) and their order (specs/Table.antt).
// It rests on the sheet's decoding and limits; proofs/ shows that a sheet which isn't sent back is well-formed. The code is rows', lowest's and refusal's.
#![tactic(auto)]
