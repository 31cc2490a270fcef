// An ACO palette written as ASE: specs/Promise.antt says what it becomes, proofs/Theorem.antt that it
// shows no difference.
#![tactic(auto)]
