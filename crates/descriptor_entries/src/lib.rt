// The entries of an accepted descriptor, its own bytes being their text: definitions, and the theorem that
// the file can be built again from them (proofs/Built.antt). No function.
#![tactic(auto)]
