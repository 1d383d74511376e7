// How long a master that is due waits (paper 02, request 7). No function: the statement in specs/, and its theorem over
// the definitions that the promises of `node` cite.
#![tactic(auto)]
