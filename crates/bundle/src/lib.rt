// Entries as they were sent, what a destination holds, and replay: definitions and laws only. What they promise: replay gives each page what its last entry
// says, in whatever order the entries of an epoch come.

#![tactic(auto)]
