use terms::{Side, Term};

/// What a message asks for.
#[derive(Clone, Copy, PartialEq, Eq, Debug)]
pub enum Request {
    /// Place an order.
    Place {
        member: u8,
        instrument: u8,
        side: Side,
        term: Term,
        rate: i32,
        lots: u16,
    },
    /// Cancel the member's order of this number.
    Cancel {
        member: u8,
        number: u16,
    },
    /// Cancel all of the member's orders.
    CancelAll {
        member: u8,
    },
}

/// Why a message is not read or written.
#[derive(Clone, Copy, PartialEq, Eq, Debug)]
pub enum MessageRefusal {
    /// The message, or the place for one, is not eight bytes.
    NotEightBytes,
    /// Reading: the code is unused, or a bit outside the code's fields is set. Writing: a value does not fit its field.
    NotLegal,
}
