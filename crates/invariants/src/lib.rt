#![tactic(auto)]
// No code: this crate shows what every call keeps: sound tables, rows that fit their fields, and the count of entries.
