// The starred sheets of document 01 as one claim: their bytes are accepted and decode to the line, and the meaning gives the answer.
// It rests on every definition so far, and has no code: the claim is in specs/, its proof in proofs/.
#![tactic(auto)]
