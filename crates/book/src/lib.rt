//! The book: all pending orders of a venue, in one ordered row of at most 256.

#![tactic(auto)]

pub mod books;
pub mod entry;
mod listing;
mod ordered;
mod orders;
pub mod part;
mod parts;
pub mod picked;
mod taking;
