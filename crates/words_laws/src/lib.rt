// What is proved of a node in words that a product lends: each call on the words is the call on the node that they say.
// No function.
#![tactic(auto)]
