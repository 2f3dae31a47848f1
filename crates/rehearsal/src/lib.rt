// Demand 3 over the bytes that ship: definitions and laws only. What they promise: a C host that hands on session and table bytes as they came back plays a
// history of the engine's calls, so that a start token which it is granted means what it means there, and a paused guest can always earn one.

#![tactic(auto)]
