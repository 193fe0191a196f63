// Closed tables of gaps between points: what they are, that a bound can be put in, and that no cell leaves its range however many are.
// It rests on the gap kind, and has no code: definitions in specs/, laws in proofs/.
#![tactic(auto)]
