// The alternating series of e^−u in whole numbers: definitions in specs/, theorems about them in proofs/.
#![tactic(auto)]
