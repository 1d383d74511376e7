// The round trips of demand 2 (paper 01): what is written is read back, and what is read is written back.
// No function: definitions in specs/, and theorems over the definitions that the promises of `frame_read`,
// `frame_write` and `frame_check` cite.
#![tactic(auto)]
