// The sheet of a typed text (specs/Numbered.antt): its terms numbered in the order in which they are completed, a term already met keeping its
// number.
// It rests on the text's form and on the bytes of a sheet, and has no code.
// proofs/ shows that the sheet of a text within its limits is well-formed, and that its fields fit their bytes.
#![tactic(auto)]
