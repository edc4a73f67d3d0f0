// The promises are theorems: what they speak of is in specs/, the theorems are in proofs/.

#![tactic(auto)]
