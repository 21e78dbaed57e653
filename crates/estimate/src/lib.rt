// Sums with rounding, and how far they can lie from the exact ones: definitions in specs/, theorems about them in proofs/.
#![tactic(auto)]
