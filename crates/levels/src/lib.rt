// The levels that a closed table gives its points: one formula, no search, and what is promised of it.
// It rests on closed tables and the gap kind, and has no code: definitions in specs/, the theorem in proofs/.
#![tactic(auto)]
