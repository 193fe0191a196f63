// What an answer of the surveyor's check is worth: a yes means that the entries clash, the answer is one only, and every reason that the
// panel writes gets a yes.
// It rests on the promises of the two calls and on the rules for reasons, and has no code: theorems in proofs/.
#![tactic(auto)]
