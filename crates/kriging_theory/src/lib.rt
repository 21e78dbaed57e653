// What a fit is: definitions in specs/, theorems about them in proofs/. The code that meets them is in the crate kriging.
#![tactic(auto)]
