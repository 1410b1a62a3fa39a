// The page of theorems: statements and proofs only.
#![tactic(auto)]
