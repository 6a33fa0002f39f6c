use terms::{Side, Term};

/// An order as it is placed.
#[derive(Clone, Copy, PartialEq, Eq, Debug)]
pub struct NewOrder {
    pub member: u8,
    pub instrument: u8,
    pub side: Side,
    pub term: Term,
    /// In ten-thousandths of a per cent.
    pub rate: i32,
    pub lots: u16,
}

/// Rate and lots of the first order of a side.
#[derive(Clone, Copy, PartialEq, Eq, Debug)]
pub struct Quote {
    pub rate: i32,
    pub lots: u16,
}

/// A place of an instrument's listing: one pending order with its side.
#[derive(Clone, Copy, Default, PartialEq, Eq, Debug)]
pub struct Listed {
    pub side: Side,
    pub rate: i32,
    pub lots: u16,
    pub number: u16,
    pub member: u8,
}
