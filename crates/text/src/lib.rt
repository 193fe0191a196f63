// Sheets typed as text: the abstract text and its print (specs/), so that a text of the form is a printed one.
// It rests on the sheet's relations, and has no code.
// proofs/ has a machine that reads a byte at a time: every printed text runs through it, whatever it hasn't stopped on begins a printed
// text, and printing loses nothing.
#![tactic(auto)]
