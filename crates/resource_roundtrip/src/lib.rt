// The theorems that tie the reading and the writing of image resource blocks: proofs/RoundTrip.antt.
#![tactic(auto)]
