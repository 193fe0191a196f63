// The lazy panels of document 01, and two of its shortcuts, as one claim: a reply of theirs breaks the promise of the call.
// It rests on the starred sheets and on what makes a reply unique, and has no code: the claim is in specs/, its proof in proofs/.
#![tactic(auto)]
