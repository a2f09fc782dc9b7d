// What the functions of the C interface promise together, from the bytes to the figures: specs/ThroughC states it, and proofs/Theorem
// proves it. There is no code here.
#![tactic(auto)]
