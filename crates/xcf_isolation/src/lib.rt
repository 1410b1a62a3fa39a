// Damage inside the windows of some tiles changes nothing outside them, and a good tile depends only on structures and on the bytes that
// it consumed: statements and proofs only.
#![tactic(auto)]
