// Descriptors as trees, and the theorems that tie them to what reading gives: proofs/RoundTrip.antt, proofs/Rows.antt, proofs/Refused.antt.
#![tactic(auto)]
