// What legs mean by the rules for reasons: a walk over them is a chain of bounds that a step may go over, and its sum is the chain's total.
// It rests on the rules, on the records of steps and on the legs' numbers, and has no code: definitions in specs/, laws in proofs/.
#![tactic(auto)]
