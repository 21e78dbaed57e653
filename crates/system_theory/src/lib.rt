// The kriging system of the books, whichever call solves it: definitions in specs/, theorems about them in proofs/.
#![tactic(auto)]
