ghost use Rattle.std.specs.Prelude.{◌≡◌, ◌+◌, ◌<◌, ◌≤◌, min, true, length};
ghost use Rattle.terms.specs.declared.Term.TheVariants.{Day};
ghost use Rattle.market.specs.Meeting.{turn as turned_by, met, stored};
ghost use Rattle.venue.specs.Reads.{market_of};
ghost use Rattle.venue.specs.Turns.{pending_count, meeting_at, rest_settled, SameOrder, Turned, Met, Did};

use crate::event_list::EventList;
use crate::incoming::{IncomingOrder, opposite_of};
use crate::state::Venue;
use book::entry::Entry;
use margin::keeper::Keeper;
use market::events::Reason;
use terms::Term;

impl<K: Keeper> Venue<K> {
    // The placed order comes to the first opposite order of its instrument. Answers whether it goes on to meet. That some lots are left is
    // true of it here, and not once a turn has ended: a premise, and no invariant of its type.
    fn turn(&mut self, incoming: &mut IncomingOrder, list: &mut EventList<'_>) -> bool
        requires some_left { 0 < incoming.old.rest }
        requires room_for_events { list.old.told + pending_count (market_of K.Keeper.sheet self.old) + 1 ≤ length list.old.places.now }
        ensures same_list { list.new.places.ghost_name ≡ list.old.places.ghost_name }
        ensures same_order { SameOrder incoming.old incoming.new }
        ensures turned { Turned (turned_by K.Keeper.charge K.Keeper.REACH incoming.old.number incoming.old.order (meeting_at (market_of K.Keeper.sheet self.old) incoming.old.rest)) (market_of K.Keeper.sheet self.new) incoming.new.rest result list.old.places.now list.new.places.now list.old.told list.new.told }
        ensures few { list.new.told + pending_count (market_of K.Keeper.sheet self.new) + min 1 incoming.new.rest ≤ list.old.told + pending_count (market_of K.Keeper.sheet self.old) + 1 }
        ensures going { result ≡ true → 0 < incoming.new.rest }
    {
        let opposite = opposite_of(incoming.order.side);
        let Some(pending) = self.book.first(opposite, incoming.order.instrument) else {
            return false;
        };
        if incoming.is_apart_from(&pending) {
            return false;
        }
        if incoming.order.member == pending.member {
            list.cancel_rest(incoming, Reason::OwnOrder);
            return false;
        }
        if self.is_hindered(&incoming.order, incoming.rest.min(pending.lots)) {
            list.cancel_rest(incoming, Reason::NeedNotLowered);
            return false;
        }
        self.fill(incoming, &pending, list)
    }

    // Lets a placed order meet as long as it goes on.
    pub(crate) fn meet(&mut self, incoming: &mut IncomingOrder, list: &mut EventList<'_>)
        requires some_left { 0 < incoming.old.rest }
        requires from_the_start { (incoming.old.rest ≡ incoming.old.order.lots) × (list.old.told ≡ 0) }
        requires room_for_events { pending_count (market_of K.Keeper.sheet self.old) + 1 ≤ length list.old.places.now }
        ensures same_list { list.new.places.ghost_name ≡ list.old.places.ghost_name }
        ensures same_order { SameOrder incoming.old incoming.new }
        ensures met { Met (met K.Keeper.charge K.Keeper.REACH incoming.old.number incoming.old.order (market_of K.Keeper.sheet self.old)) (market_of K.Keeper.sheet self.new) incoming.new.rest list.old.places.now list.new.places.now 0 list.new.told }
        ensures few { list.new.told + pending_count (market_of K.Keeper.sheet self.new) + min 1 incoming.new.rest ≤ pending_count (market_of K.Keeper.sheet self.old) + 1 }
    {
        // Not an index: each turn that goes on takes a lot at least, so that there are no more turns than lots.
        for _ in 0..incoming.order.lots {
            if !self.turn(incoming, list) {
                return;
            }
        }
    }

    // What is left of a placed order: of a day order it becomes pending, of an immediate one it is cancelled.
    pub(crate) fn settle(&mut self, incoming: &IncomingOrder, list: &mut EventList<'_>)
        requires room_in_book { incoming.now.order.term ≡ Day → pending_count (market_of K.Keeper.sheet self.old) + min 1 incoming.now.rest ≤ 256 }
        requires room_for_events { list.old.told + min 1 incoming.now.rest ≤ length list.old.places.now }
        ensures same_list { list.new.places.ghost_name ≡ list.old.places.ghost_name }
        ensures did { Did (rest_settled incoming.now.number incoming.now.order (market_of K.Keeper.sheet self.old) incoming.now.rest) (market_of K.Keeper.sheet self.new) list.old.places.now list.new.places.now list.old.told list.new.told }
    {
        if incoming.rest == 0 {
            return;
        }
        match incoming.order.term {
            Term::Day => self.store(incoming),
            Term::Immediate => list.tell_rest(incoming, Reason::NotMetAtOnce),
        }
    }

    fn store(&mut self, incoming: &IncomingOrder)
        requires { pending_count (market_of K.Keeper.sheet self.old) < 256 }
        ensures { market_of K.Keeper.sheet self.new ≡ stored incoming.now.number incoming.now.order (market_of K.Keeper.sheet self.old) incoming.now.rest }
    {
        let _ = self.book.put(Entry {
            instrument: incoming.order.instrument,
            side: incoming.order.side,
            order: incoming.pending(),
        });
    }
}
