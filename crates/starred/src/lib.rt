// The starred rows of the scope document, proved about the definitions that the contracts cite: see
// proofs/Starred.antt.
#![tactic(auto)]
