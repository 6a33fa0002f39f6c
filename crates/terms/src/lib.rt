//! The words that every other crate needs.

#![tactic(auto)]

/// The side of an interest rate swap that a member takes.
#[derive(Clone, Copy, Default, PartialEq, Eq, Debug)]
pub enum Side {
    /// Pays the fixed rate: its lots are bought.
    #[default]
    Bid,
    /// Receives the fixed rate: its lots are sold.
    Offer,
}

/// How long an order waits.
#[derive(Clone, Copy, PartialEq, Eq, Debug)]
pub enum Term {
    /// What is not met at once waits until the close.
    Day,
    /// What is not met at once is cancelled.
    Immediate,
}

/// A pending order: one that waits to be met.
#[derive(Clone, Copy, Default, PartialEq, Eq, Debug)]
pub struct Order {
    /// In ten-thousandths of a per cent; rates may be below 0.
    pub rate: i32,
    /// Orders are numbered as they are accepted, from 1: the lower number came first.
    pub number: u16,
    pub member: u8,
    /// What is left of it.
    pub lots: u16,
}
