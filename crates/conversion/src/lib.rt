// Samples of ACO spaces to channels of ASE models and back, one and a run of them: definitions and theorems. No function.
#![tactic(auto)]
