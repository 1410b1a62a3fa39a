// What acceptance says of a file, and the numbers of its refusals: proofs only.
#![tactic(auto)]
