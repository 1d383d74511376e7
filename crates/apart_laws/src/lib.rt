// What is proved of records kept apart (paper 02, request 11): one record a domain, the kept reading beside them, and
// no node. No function.
#![tactic(auto)]
