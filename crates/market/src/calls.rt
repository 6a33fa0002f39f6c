ghost use Rattle.std.specs.Prelude.{◌≡◌};
ghost use Rattle.market.specs.Answers.{events_told};

use crate::members::{Limits, Standing};
use crate::orders::{NewOrder, Quote};

/// How many places a list for events or for a listing has to have: the most events that a call tells.
pub const LIST_PLACES: usize = 257;

/// The part of the day that a venue is in.
#[derive(Clone, Copy, PartialEq, Eq, Debug)]
pub enum Phase {
    /// Members are admitted and instruments defined.
    SetUp,
    /// Orders meet.
    Open,
    Closed,
}

/// A call of a venue. Its values may be any: the venue refuses those that the rules refuse. So benchmarks and groups of tenors
/// come by number, as to the calls themselves: an enum would ask more of a caller.
#[derive(Clone, Copy, PartialEq, Eq, Debug)]
pub enum Call {
    /// Benchmarks by number: 1 MIBOR, 2 MMFOR, 3 both.
    Admit {
        member: u8,
        benchmarks: u8,
        limits: Limits,
    },
    /// Benchmark by number: 0 MIBOR, 1 MMFOR. Group by number: 0 up to one year, 1 over one and up to five, 2 over five.
    Define {
        instrument: u8,
        benchmark: u8,
        group: u8,
        factor: u32,
    },
    Open,
    Deposit {
        member: u8,
        amount: u64,
    },
    Withdraw {
        member: u8,
        amount: u64,
    },
    Place(NewOrder),
    Cancel {
        member: u8,
        number: u16,
    },
    CancelAll {
        member: u8,
    },
    Close,
    /// A question: need, deposit and mode of a member.
    AskStanding {
        member: u8,
    },
    /// A question: the best bid and the best offer of an instrument.
    AskQuotes {
        instrument: u8,
    },
    /// A question: the pending orders of an instrument.
    AskListing {
        instrument: u8,
    },
}

/// An accepted order's number, and how many events the call told.
#[derive(Clone, Copy, PartialEq, Eq, Debug)]
pub struct Placed {
    pub number: u16,
    pub events: usize,
}

/// How many bids and offers a listing has.
#[derive(Clone, Copy, PartialEq, Eq, Debug)]
pub struct ListingCounts {
    pub bids: usize,
    pub offers: usize,
}

/// What a call that is not refused answers.
#[derive(Clone, Copy, PartialEq, Eq, Debug)]
pub enum Answer {
    /// Of a call that tells no events: admit, define, open, deposit and withdraw.
    Done,
    Placed(Placed),
    /// Of cancel, cancel all and close: how many events they told, one for each order cancelled.
    Cancelled(usize),
    Standing(Standing),
    /// The best bid, then the best offer.
    Quotes(Option<Quote>, Option<Quote>),
    Listing(ListingCounts),
}

impl Answer {
    /// How many events the call told: they stand from the first place of its list on.
    pub fn events_told(&self) -> usize
        ensures { result ≡ events_told self.now }
    {
        match self {
            Answer::Placed(placed) => placed.events,
            Answer::Cancelled(count) => *count,
            _ => 0,
        }
    }
}
