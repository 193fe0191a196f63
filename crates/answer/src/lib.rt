// The answer record of document 01: its bytes for holds and for clashes, and what bytes have answer form, in specs/.
// It rests on big's way of writing numbers and on the sheet's limits; proofs/ shows that a record tells what it was made of, and that bytes
// which read as its numbers are the record. The code that writes it is writing's.
#![tactic(auto)]
