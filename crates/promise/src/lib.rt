// What a promise is worth: the one word, `OnlyOne`, in which each crate says that no two results
// satisfy a function's promise for the same input; and the laws of tests and lists that proofs share. There is no
// function here.
#![tactic(auto)]
