// Demand 3 of paper 01, met and at its edges: a day of a master and a slave that meets the hypotheses of the
// theorems of `history`; histories where 16 sending periods only equal E plus the follow-up time, or E plus the
// confirmation time, over seconds and within one, and the slave holds a wrong time; one where a pair whose SYNC
// arrives a nanosecond before the moment plus L is not taken; and some that meet all, within one second. What the
// must-fail edits of `history` make of its statements is false: a history refutes each. No function.
#![tactic(auto)]
