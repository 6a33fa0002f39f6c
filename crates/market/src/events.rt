ghost use Rattle.std.specs.Prelude.{◌≡◌, Some};
ghost use Rattle.market.specs.declared.events.Event.TheVariants.{Cancelled};
ghost use Rattle.market.specs.Cancels.{cancelled};
ghost use Rattle.market.specs.Wording.{reason_words};

use std::fmt;
use terms::Order;

/// Why an order, or what was left of it, was cancelled.
#[derive(Clone, Copy, PartialEq, Eq, Debug)]
pub enum Reason {
    /// Its member asked for it.
    Asked,
    /// The rest of an immediate order that found nothing more to meet.
    NotMetAtOnce,
    /// The rest of an order that came to an order of the same member.
    OwnOrder,
    /// Its member went from normal to reduction mode.
    TurnedToReduction,
    /// The rest of an order of a member in reduction mode whose next fill would not have lowered its need.
    NeedNotLowered,
    /// The venue closed.
    Closing,
}

impl Reason {
    /// The reason in words, for people.
    pub fn words(&self) -> &'static str
        ensures { result.now ≡ reason_words self.now }
    {
        match self {
            Reason::Asked => "asked for by the member",
            Reason::NotMetAtOnce => "immediate order not met at once",
            Reason::OwnOrder => "came to an order of the same member",
            Reason::TurnedToReduction => "member turned to reduction mode",
            Reason::NeedNotLowered => "would not lower the need in reduction mode",
            Reason::Closing => "the venue closed",
        }
    }
}

impl fmt::Display for Reason {
    ghost output = { λ reason. Some (reason_words reason) };

    fn fmt<W: fmt::Write>(&self, f: &mut fmt::Formatter<W>) -> fmt::Result {
        f.write_str(self.words())
    }
}

/// Lots of an instrument change hands at a fixed rate.
#[derive(Clone, Copy, PartialEq, Eq, Debug)]
pub struct Trade {
    pub instrument: u8,
    /// Pays the fixed rate.
    pub buyer: u8,
    pub buy_number: u16,
    /// Receives the fixed rate.
    pub seller: u8,
    pub sell_number: u16,
    pub rate: i32,
    pub lots: u16,
}

/// An order leaves the market with lots that were not traded.
#[derive(Clone, Copy, PartialEq, Eq, Debug)]
pub struct Cancellation {
    pub number: u16,
    pub member: u8,
    pub lots: u16,
    pub reason: Reason,
}

impl Cancellation {
    /// Of a whole order, or of what is left of one.
    pub fn of(order: &Order, reason: Reason) -> Self
        ensures { Cancelled result ≡ cancelled reason order.now }
    {
        Cancellation {
            number: order.number,
            member: order.member,
            lots: order.lots,
            reason,
        }
    }
}

/// What a call tells, in the sequence in which it happened.
#[derive(Clone, Copy, PartialEq, Eq, Debug)]
pub enum Event {
    Traded(Trade),
    Cancelled(Cancellation),
}

/// What a list for events may be filled with before its first call. No call tells it, since numbers begin at 1.
///
/// Written out, since an enum derives `Default` only for a variant with no fields.
pub const BLANK_EVENT: Event = Event::Cancelled(Cancellation {
    number: 0,
    member: 0,
    lots: 0,
    reason: Reason::Asked,
});
