// Computed cases whose answers were worked out elsewhere: the cases in specs/, and in proofs/ the one lemma that holds them all.
#![tactic(auto)]
