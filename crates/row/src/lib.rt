//! The ordered row: entries that stand by precedence in the first places of a lent slice, for every kind of entry.

#![tactic(auto)]

pub mod entries;
mod ordered;
pub mod precedence;
pub mod refusal;

pub use crate::ordered::{first, insert, remove};
