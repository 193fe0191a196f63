// The order of the whole numbers, which the library leaves out: its definition in specs/, its laws in proofs/.
// It rests on the library's whole numbers alone, and no code of ours uses a signed number.
#![tactic(auto)]
