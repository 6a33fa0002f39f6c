ghost use Rattle.std.specs.Prelude.{◌≡◌, ◌<◌};
ghost use Rattle.market.specs.Meeting.{opposite, apart, trade_of, order_of};

use market::events::Trade;
use market::orders::NewOrder;
use terms::{Order, Side};

/// An incoming order: the number that it was given, what was placed, and the lots that are left of it.
#[derive(Clone, Copy)]
pub(crate) struct IncomingOrder {
    pub(crate) number: u16,
    pub(crate) order: NewOrder,
    pub(crate) rest: u16,
    ghost in_range: { order.instrument < 16 },
}

pub(crate) fn opposite_of(side: Side) -> Side
    ensures { result ≡ opposite side }
{
    match side {
        Side::Bid => Side::Offer,
        Side::Offer => Side::Bid,
    }
}

impl IncomingOrder {
    /// The bid's rate is below the offer's.
    pub(crate) fn is_apart_from(&self, pending: &Order) -> bool
        ensures { result ≡ apart self.now.order.side self.now.order.rate pending.now.rate }
    {
        match self.order.side {
            Side::Bid => self.order.rate < pending.rate,
            Side::Offer => pending.rate < self.order.rate,
        }
    }

    /// A trade is at the pending order's rate.
    pub(crate) fn trade_with(&self, pending: &Order, lots: u16) -> Trade
        ensures { result ≡ trade_of self.now.number self.now.order pending.now lots }
    {
        let rate = pending.rate;
        let ours = (self.order.member, self.number);
        let theirs = (pending.member, pending.number);
        let (bid, offer) = match self.order.side {
            Side::Bid => (ours, theirs),
            Side::Offer => (theirs, ours),
        };
        Trade {
            instrument: self.order.instrument,
            buyer: bid.0,
            buy_number: bid.1,
            seller: offer.0,
            sell_number: offer.1,
            rate,
            lots,
        }
    }

    /// What is left of it, as a pending order.
    pub(crate) fn pending(&self) -> Order
        ensures { result ≡ order_of self.now.number self.now.order self.now.rest }
    {
        Order {
            rate: self.order.rate,
            number: self.number,
            member: self.order.member,
            lots: self.rest,
        }
    }
}
