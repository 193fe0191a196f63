// What routes mean by the rules for reasons: their sets are the rules' own paths.
// It rests on the rules, on links and what they mean, and on the numbers of routes, and has no code: definitions in specs/, laws in proofs/.
#![tactic(auto)]
