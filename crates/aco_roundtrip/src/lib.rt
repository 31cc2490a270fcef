// The theorems that tie the reading and the writing of ACO files: proofs/RoundTrip.antt.
#![tactic(auto)]
