// ACB colour books: the order of names, the index of a book by the names of its records, and what search in it finds: definitions and laws. No function.
#![tactic(auto)]
