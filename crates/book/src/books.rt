ghost use Rattle.std.specs.Prelude.{◌≡◌, ◌≤◌, true, length};
ghost use Rattle.book.specs.Standing.{stands};

use crate::entry::{Entry, Leaving};
use arrayvec::ArrayVec;

/// How many orders may be pending.
pub const PLACES: usize = 256;

/// All pending orders, in one ordered row: by instrument, bids before offers, each side in the sequence in which it will be met.
#[derive(Drop)]
pub struct Book {
    pub(crate) entries: ArrayVec<Entry, PLACES>,
    ghost room: { length entries.items ≤ 256 },
    ghost standing: { stands entries.items ≡ true },
}

/// Orders that left the book together, lowest number first.
#[derive(Drop)]
pub struct Taken {
    pub(crate) orders: ArrayVec<Leaving, PLACES>,
}

/// Why a book refuses an order.
#[derive(Clone, Copy, PartialEq, Eq, Debug)]
pub enum BookRefusal {
    /// The instrument is above 15.
    NoSuchInstrument,
    /// Every place is occupied.
    Full,
}
