#![tactic(auto)]
// No code: this crate holds laws of the model's lists and of lists in general, for the proofs of the other crates.
