//! What a margin keeper means, its laws, and what follows from them for every keeper.

#![tactic(auto)]

pub mod deposit;
pub mod keeper;
pub mod refusal;
pub mod trade;
