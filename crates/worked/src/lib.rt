// No code: proofs/ holds the worked examples of the scope document that take the prover seconds, apart from paper so that its edits stay quick.
#![tactic(auto)]
