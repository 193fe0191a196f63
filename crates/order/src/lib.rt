// Sets of entries and the mission's order of them, over any ranking without ties and any limit: definitions in specs/, laws in proofs/.
// It rests on nothing but numbers. A first set of any property is shown to be one only, and so is its rising list; and going down from
// the highest rank, leaving out what isn't needed, is shown to end in the first set of any property that is upward closed.
#![tactic(auto)]
