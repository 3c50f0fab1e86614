//! Queries of tables: which records match a pattern.
//!
//! `specs/Patterns.antt` says what a pattern is, and which terms match it.
#![tactic(auto)]

mod atoms;
mod bound;
mod laws;
mod matching;

pub use bound::bound_key;
pub use laws::{bound_key_law, pattern_law};
pub use matching::matches;

#[cfg(test)]
mod tests;
