ghost use Rattle.std.specs.Prelude.{◌≡◌, ◌+◌, ◌<◌, ◌≤◌, min, true, length, Some};
ghost use Rattle.market.specs.Meeting.{opposite, trade_of, lowers_need, is_hindered};
ghost use Rattle.book.specs.Reads.{first_of};
ghost use Rattle.venue.specs.Reads.{market_of};
ghost use Rattle.venue.specs.Turns.{pending_count, meeting_at, after_first_fill, fill_first, SameOrder, Turned};

use crate::event_list::EventList;
use crate::incoming::{IncomingOrder, opposite_of};
use crate::state::Venue;
use margin::keeper::Keeper;
use margin::trade::record_trade;
use market::events::{Event, Reason, Trade};
use market::members::Mode;
use market::orders::NewOrder;
use terms::Order;

impl<K: Keeper> Venue<K> {
    // Whether so many lots of an order would lower its member's need.
    pub(crate) fn lowers_need(&self, new: &NewOrder, lots: u16) -> bool
        ensures { result ≡ lowers_need K.Keeper.charge K.Keeper.REACH (market_of K.Keeper.sheet self.now) new.now lots }
    {
        let with_lots = self
            .keeper
            .need_with(new.member, new.instrument, new.side, u32::from(lots));
        with_lots.is_ok_and(|need| need < self.keeper.need(new.member))
    }

    // A member in reduction mode may only trade what lowers its need.
    pub(crate) fn is_hindered(&self, new: &NewOrder, lots: u16) -> bool
        ensures { result ≡ is_hindered K.Keeper.charge K.Keeper.REACH (market_of K.Keeper.sheet self.now) new.now lots }
    {
        self.members.mode(new.member) == Mode::Reduction && !self.lowers_need(new, lots)
    }

    // The trade: the lots leave the pending order, and the keeper records both sides. Over a fresh keeper there is nothing to refuse.
    fn trade(&mut self, incoming: &IncomingOrder, pending: &Order, lots: u16) -> Trade
        ensures market { market_of K.Keeper.sheet self.new ≡ after_first_fill K.Keeper.REACH (market_of K.Keeper.sheet self.old) incoming.now.order pending.now lots }
        ensures trade { result ≡ trade_of incoming.now.number incoming.now.order pending.now lots }
    {
        let trade = incoming.trade_with(pending, lots);
        let Trade {
            buyer,
            seller,
            instrument,
            ..
        } = trade;
        self.book
            .fill(opposite_of(incoming.order.side), instrument, lots);
        let lots = u32::from(lots);
        let _ = record_trade(&mut self.keeper, buyer, seller, instrument, lots);
        trade
    }

    // A fill: the trade; the placing member judged; if it fell, its rest cancelled after its pending orders; the other judged.
    // Answers whether the placed order goes on to meet.
    pub(crate) fn fill(
        &mut self,
        incoming: &mut IncomingOrder,
        pending: &Order,
        list: &mut EventList<'_>,
    ) -> bool
        requires some_left { 0 < incoming.old.rest }
        requires room_for_events { list.old.told + pending_count (market_of K.Keeper.sheet self.old) + 1 ≤ length list.old.places.now }
        requires pending_is_first { Some pending.now ≡ first_of ((market_of K.Keeper.sheet self.old).rows (opposite incoming.old.order.side) incoming.old.order.instrument) }
        ensures same_list { list.new.places.ghost_name ≡ list.old.places.ghost_name }
        ensures same_order { SameOrder incoming.old incoming.new }
        ensures turned { Turned (fill_first K.Keeper.charge K.Keeper.REACH incoming.old.number incoming.old.order (meeting_at (market_of K.Keeper.sheet self.old) incoming.old.rest) ((market_of K.Keeper.sheet self.old).rows (opposite incoming.old.order.side) incoming.old.order.instrument)) (market_of K.Keeper.sheet self.new) incoming.new.rest result list.old.places.now list.new.places.now list.old.told list.new.told }
        ensures few { list.new.told + pending_count (market_of K.Keeper.sheet self.new) + min 1 incoming.new.rest ≤ list.old.told + pending_count (market_of K.Keeper.sheet self.old) + 1 }
        ensures going { result ≡ true → 0 < incoming.new.rest }
    {
        let lots = incoming.rest.min(pending.lots);
        let trade = self.trade(incoming, pending, lots);
        list.tell(Event::Traded(trade));
        incoming.rest -= lots;
        if self.judge(incoming.order.member, list) {
            list.cancel_rest(incoming, Reason::TurnedToReduction);
        }
        self.judge(pending.member, list);
        incoming.rest > 0
    }
}
