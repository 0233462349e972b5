// The demands as theorems: no code, see specs/ and proofs/.
#![tactic(auto)]
