// Two descriptors that differ in one value: what stays as it was. Theorems alone: proofs/Undisturbed.antt.
#![tactic(auto)]
