// Demand 3 tried on concrete tables: what is proved for all is computed here for some, and a wrong definition is refuted by one of them.
#![tactic(auto)]
