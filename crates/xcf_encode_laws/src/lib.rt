// What was encoded is read back, and the numbers of a call: proofs only.
#![tactic(auto)]
