#![tactic(auto)]
// What creation and removal share: their tests, the entry at the end of a walk, and the holds that they take.
pub mod entry;
pub mod takes;
pub mod tests;
