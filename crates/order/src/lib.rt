// Orders, sorted lists, and runs of numbers that are rearranged and sorted as heaps: definitions and laws. No function.
#![tactic(auto)]
