// What is reachable, and the laws of a node's calls (paper 01). No function: definitions in specs/, and
// theorems over the definitions that the promises of `node` cite.
#![tactic(auto)]
