// Demand 3 of paper 01: what a slave holds is what the master sent. No function: histories, hypotheses and
// the statements in specs/, the theorems in proofs/, over the definitions that the promises of `node` cite.
#![tactic(auto)]
