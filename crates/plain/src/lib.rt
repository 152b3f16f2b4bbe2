// Demand 3: nothing is lost. The crate has no code; what it states is in specs/, what it proves in proofs/.
#![tactic(auto)]
