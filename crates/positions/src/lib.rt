//! Factors and lots as the shipped keepers hold them, and what a tariff charges on them.

#![tactic(auto)]

mod instrument;
pub mod lots;
mod places;
pub mod table;
pub mod tariff;
mod totals;
