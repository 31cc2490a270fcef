// ACO swatches: what writing a run of records asks, makes and refuses: definitions and theorems. No function.
#![tactic(auto)]
