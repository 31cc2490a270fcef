// The theorems that tie the reading and the writing of ASE files: proofs/RoundTrip.antt.
#![tactic(auto)]
