//! The margin keepers: the reckoner, the running keeper and the gross keeper.

#![tactic(auto)]

pub mod gross;
pub mod reckoner;
pub mod running;
pub mod summing;
