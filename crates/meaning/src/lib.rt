// What it means to hold, after document 01's section of that name, and what it says of the starred sheets.
// It rests on the abstract sheet and the order of lists, and has no code: definitions in specs/, laws and the starred lines in proofs/.
#![tactic(auto)]
