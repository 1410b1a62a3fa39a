// What the writer writes reads back: statements and proofs only.
#![tactic(auto)]
