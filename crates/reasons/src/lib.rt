// The rules for reasons, after document 01's section "What a written reason may say", and what a reason shows: its list clashes.
// It rests on the abstract sheet, its meaning and the gap kind, knows nothing of tables, and has no code: definitions in specs/, laws in
// proofs/.
#![tactic(auto)]
