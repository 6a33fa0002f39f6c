use terms::Side;

/// A part of the book.
#[derive(Clone, Copy, PartialEq, Eq, Debug)]
pub enum Part {
    Whole,
    /// Both sides of an instrument.
    Instrument(u8),
    /// One side of an instrument.
    Row(Side, u8),
}
