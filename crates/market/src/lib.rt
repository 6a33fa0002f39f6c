//! The words of the market, and in `specs/` its rules: what each call answers, tells and makes of a venue.

#![tactic(auto)]

pub mod calls;
pub mod events;
pub mod instruments;
pub mod members;
pub mod numbers;
pub mod orders;
pub mod refusals;
