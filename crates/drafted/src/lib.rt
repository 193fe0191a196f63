// A reason's draft: bounds in a ledger, ties laid over them, and what the needed ones rest on; and that its steps, without those that aren't
// needed, obey the rules for reasons.
// It rests on what each part of the writer promises, and has no code: definitions in specs/, theorems in proofs/.
#![tactic(auto)]
