#![tactic(auto)]
// No code: this crate holds the proof that the listing's text is the model's, however the input is split.
