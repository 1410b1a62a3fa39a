// What the decoder shows of accepted rows and of tiles, and the numbers of its refusals: statements and proofs only.
#![tactic(auto)]
