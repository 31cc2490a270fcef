// Text in 16-bit units and its UTF-8: definitions and theorems. No function.
#![tactic(auto)]
