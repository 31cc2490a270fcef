// The readers' algebra: numbers, readers, names, sets, stores and what is written, with the laws of each. No function.
#![tactic(auto)]
