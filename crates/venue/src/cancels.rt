ghost use Rattle.std.specs.Prelude.{◌≡◌, ◌+◌, ◌≤◌, length, OnOk};
ghost use Rattle.market.specs.declared.calls.Answer.TheVariants.{Cancelled as CancelledCount};
ghost use Rattle.market.specs.declared.calls.Call.TheVariants.{Cancel, CancelAll, Close};
ghost use Rattle.market.specs.Cancels.{cancelling};
ghost use Rattle.market.specs.Grounds.{checked, cancel_grounds, cancel_all_grounds, close_grounds};
ghost use Rattle.venue.specs.Obeys.{Obeys, as_answer};
ghost use Rattle.book.specs.Picks.{picks};
ghost use Rattle.venue.specs.Reads.{market_of};
ghost use Rattle.venue.specs.Turns.{pending_count, Did};

use crate::event_list::EventList;
use crate::grounds::{check_list, check_phase};
use crate::state::Venue;
use book::picked::Picked;
use margin::keeper::Keeper;
use market::calls::Phase;
use market::events::{Event, Reason};
use market::refusals::Refusal;

impl<K: Keeper> Venue<K> {
    // Every cancel of pending orders: those that are picked leave the book, and are told.
    pub(crate) fn cancel_picked(&mut self, picked: Picked, reason: Reason, list: &mut EventList<'_>)
        requires { list.old.told + pending_count (market_of K.Keeper.sheet self.old) ≤ length list.old.places.now }
        ensures same_list { list.new.places.ghost_name ≡ list.old.places.ghost_name }
        ensures did { Did (cancelling (picks picked) reason (market_of K.Keeper.sheet self.old)) (market_of K.Keeper.sheet self.new) list.old.places.now list.new.places.now list.old.told list.new.told }
        ensures few { list.new.told + pending_count (market_of K.Keeper.sheet self.new) ≡ list.old.told + pending_count (market_of K.Keeper.sheet self.old) }
    {
        let taken = self.book.cancel(&picked);
        if let Some(told) = taken.tell(reason, list.places, list.told) {
            list.told = told;
        }
    }

    // The same of a whole call: its list of events begins with these, and it answers how many they are.
    #[tactic(auto, using(crate::proofs::Checks::pending_few))]
    fn cancel_all_picked(&mut self, picked: Picked, reason: Reason, events: &mut [Event]) -> usize
        requires { 257 ≤ length events.old }
        ensures { Did (cancelling (picks picked) reason (market_of K.Keeper.sheet self.old)) (market_of K.Keeper.sheet self.new) events.old events.new 0 result }
    {
        let mut list = EventList::of(events);
        self.cancel_picked(picked, reason, &mut list);
        list.told
    }

    /// Cancels a member's pending order of this number, and answers how many events it told.
    pub fn cancel(
        &mut self,
        member: u8,
        number: u16,
        events: &mut [Event],
    ) -> Result<usize, Refusal>
        ensures { Obeys K.Keeper.charge K.Keeper.REACH (Cancel member number) (market_of K.Keeper.sheet self.old) (market_of K.Keeper.sheet self.new) (as_answer CancelledCount result) events.old events.new }
    {
        self.check_cancel(member, number, events.len())?;
        Ok(self.cancel_all_picked(Picked::One { member, number }, Reason::Asked, events))
    }

    /// Cancels all of a member's pending orders, lowest number first, and answers how many events it told.
    pub fn cancel_all(&mut self, member: u8, events: &mut [Event]) -> Result<usize, Refusal>
        ensures { Obeys K.Keeper.charge K.Keeper.REACH (CancelAll member) (market_of K.Keeper.sheet self.old) (market_of K.Keeper.sheet self.new) (as_answer CancelledCount result) events.old events.new }
    {
        self.check_cancel_all(member, events.len())?;
        Ok(self.cancel_all_picked(Picked::OfMember(member), Reason::Asked, events))
    }

    /// Ends the day: cancels all pending orders, lowest number first, and answers how many events it told.
    pub fn close(&mut self, events: &mut [Event]) -> Result<usize, Refusal>
        ensures { Obeys K.Keeper.charge K.Keeper.REACH Close (market_of K.Keeper.sheet self.old) (market_of K.Keeper.sheet self.new) (as_answer CancelledCount result) events.old events.new }
    {
        self.check_open_with(events.len())?;
        self.phase = Phase::Closed;
        Ok(self.cancel_all_picked(Picked::All, Reason::Closing, events))
    }

    // Every call that tells events belongs to the open phase.
    pub(crate) fn check_open_with(&self, places: usize) -> Result<(), Refusal>
        ensures checked { result ≡ checked (close_grounds places (market_of K.Keeper.sheet self.now)) }
        ensures long { OnOk result (257 ≤ places) }
    {
        check_list(places)?;
        check_phase(self.phase, Phase::Open)
    }

    fn check_cancel_all(&self, member: u8, places: usize) -> Result<(), Refusal>
        ensures checked { result ≡ checked (cancel_all_grounds places (market_of K.Keeper.sheet self.now) member) }
        ensures long { OnOk result (257 ≤ places) }
    {
        self.check_open_with(places)?;
        self.members.admitted(member)?;
        Ok(())
    }

    fn check_cancel(&self, member: u8, number: u16, places: usize) -> Result<(), Refusal>
        ensures checked { result ≡ checked (cancel_grounds places (market_of K.Keeper.sheet self.now) member number) }
        ensures long { OnOk result (257 ≤ places) }
    {
        self.check_cancel_all(member, places)?;
        if !self.book.has(&Picked::One { member, number }) {
            return Err(Refusal::NoSuchOrder);
        }
        Ok(())
    }
}
