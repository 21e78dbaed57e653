// What an experimental semivariogram is: definitions in specs/, theorems about them in proofs/. The code that meets them is in the crate semivariogram.
#![tactic(auto)]
