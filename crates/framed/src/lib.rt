// Number, place and room in one row of bytes, as programs for tests and tools answer a frame.
// It rests on big's numbers and has no code: what is promised of a number, a place and a room is promised of the row (proofs/Framed.antt).
#![tactic(auto)]
