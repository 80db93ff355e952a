#![tactic(auto)]
// Proofs alone: the cases that document 01 marks P.
