// Demand 3 over any run of requests, on the bytes of the tables. The crate has no code; what it states is in specs/, what it proves in proofs/.
#![tactic(auto)]
