// What links mean by the rules for reasons: points of one group, and their gap.
// It rests on the rules and on the numbers of legs and links, and has no code: definitions in specs/, laws in proofs/.
#![tactic(auto)]
