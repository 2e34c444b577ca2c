// Demand 3, "Getting back in step": theorems over the definitions of `reader`. They stand in specs/ and proofs/; there is no code.
#![tactic(auto)]
