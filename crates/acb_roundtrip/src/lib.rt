// The theorems that tie the reading and the writing of ACB files: proofs/RoundTrip.antt.
#![tactic(auto)]
