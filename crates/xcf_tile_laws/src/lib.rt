// What decides a tile: the bytes consumed, its marks, its pixels, and that it is good exactly for a valid encoding; the numbers of a
// call. Statements and proofs only.
#![tactic(auto)]
