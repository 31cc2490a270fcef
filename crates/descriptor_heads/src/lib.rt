// Descriptors as heads one after the other, and the theorems that tie them to the recursive reading and show what a
// changed value leaves as it was: proofs/Theorem.antt, proofs/Lockstep.antt.
#![tactic(auto)]
