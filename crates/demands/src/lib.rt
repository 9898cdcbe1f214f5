// What is asked of a reading of parts, as theorems over the definitions: see proofs/.
#![tactic(auto)]
