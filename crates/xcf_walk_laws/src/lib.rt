// What a walk depends on, ensures, refuses with and passes over, and which colour maps are taken: statements and proofs only.
#![tactic(auto)]
