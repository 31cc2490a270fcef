// ACB colour books: what writing a header and a run of records asks, makes and refuses: definitions and theorems. No function.
#![tactic(auto)]
