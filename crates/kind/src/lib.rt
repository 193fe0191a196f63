// The gap kind in document 01's words (specs/Kind.antt), the codes that pack it as a count of half steps (specs/Code.antt), and what a gap says of
// two levels (specs/Meets.antt). It rests on the order of the whole numbers; proofs/ has the laws of sum and tighter. The type is gap's.
#![tactic(auto)]
