// The small files P1 to P12 of docs/RULES.md, as one statement over one list: proofs/Agreed.antt.
#![tactic(auto)]
