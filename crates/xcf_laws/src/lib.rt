// Laws that many crates need, of choices, steps, copied bytes and the sizes of tiles: proofs only.
#![tactic(auto)]
