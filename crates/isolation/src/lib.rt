// Demand 3, the isolation of a group: the statement is in specs/, its proof in proofs/. There is no code.
#![tactic(auto)]
