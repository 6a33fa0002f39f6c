ghost use Rattle.std.specs.Prelude.{◌≡◌, ◌+◌, ◌<◌, ◌≤◌, min, [], ◌∷◌, length};
ghost use Rattle.market.specs.Lists.{Wrote};
ghost use Rattle.market.specs.Meeting.{rest_cancelled};
ghost use Rattle.venue.specs.Turns.{SameOrder};

use crate::incoming::IncomingOrder;
use market::events::{Cancellation, Event, Reason};

/// The caller's list of events. Those that the call has told so far stand in its first places.
///
/// Each function that takes one ensures `same_list`, by which its owner knows that the places are still the caller's, and requires room
/// for what it may tell: facts of two moments, or of list and venue together, which no type of its own could carry.
#[derive(Drop)]
pub(crate) struct EventList<'a> {
    pub(crate) places: &'a mut [Event],
    pub(crate) told: usize,
}

impl<'a> EventList<'a> {
    /// A list with nothing told yet.
    pub(crate) fn of(places: &'a mut [Event]) -> EventList<'a>
        ensures same_list { result.places.ghost_name ≡ places.entry.ghost_name }
        ensures places { result.places.now ≡ places.old }
        ensures told { result.told ≡ 0 }
    {
        EventList { places, told: 0 }
    }

    pub(crate) fn tell(&mut self, event: Event)
        requires { self.old.told < length self.old.places.now }
        ensures same_list { self.new.places.ghost_name ≡ self.old.places.ghost_name }
        ensures wrote { Wrote self.old.places.now self.new.places.now self.old.told self.new.told (event ∷ []) }
    {
        self.places[self.told] = event;
        self.told += 1;
    }

    /// Tells the cancel of a placed order's rest. A rest of 0 lots is no rest.
    pub(crate) fn tell_rest(&mut self, incoming: &IncomingOrder, reason: Reason)
        requires { self.old.told + min 1 incoming.now.rest ≤ length self.old.places.now }
        ensures same_list { self.new.places.ghost_name ≡ self.old.places.ghost_name }
        ensures wrote { Wrote self.old.places.now self.new.places.now self.old.told self.new.told (rest_cancelled incoming.now.number incoming.now.order reason incoming.now.rest) }
    {
        if incoming.rest > 0 {
            let cancellation = Cancellation::of(&incoming.pending(), reason);
            self.tell(Event::Cancelled(cancellation));
        }
    }

    /// Cancels a placed order's rest, and tells it.
    pub(crate) fn cancel_rest(&mut self, incoming: &mut IncomingOrder, reason: Reason)
        requires { self.old.told + min 1 incoming.old.rest ≤ length self.old.places.now }
        ensures same_list { self.new.places.ghost_name ≡ self.old.places.ghost_name }
        ensures wrote { Wrote self.old.places.now self.new.places.now self.old.told self.new.told (rest_cancelled incoming.old.number incoming.old.order reason incoming.old.rest) }
        ensures same_order { SameOrder incoming.old incoming.new }
        ensures none_left { incoming.new.rest ≡ 0 }
    {
        self.tell_rest(incoming, reason);
        incoming.rest = 0;
    }
}
