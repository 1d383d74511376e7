// What is proved of a whole sheet (paper 02, request 13): specs/ has the statements and proofs/ the proofs. There is no
// function here.
#![tactic(auto)]
