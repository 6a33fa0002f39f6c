ghost use Rattle.std.specs.Prelude.{◌≡◌, ◌+◌, ◌≤◌, not, ◌++◌, map, length, take, drop, if◌then◌else◌, Some, None, filter, ◌==◌, nat_le};
ghost use Rattle.std.specs.List.{list_any};
ghost use Rattle.market.specs.Cancels.{cancelled, by_number, rows_without, picked_orders};
ghost use Rattle.market.specs.Lists.{Wrote};
ghost use Rattle.market.specs.Markets.{pending_orders};
ghost use Rattle.book.specs.Picks.{picks};
ghost use Rattle.book.specs.Reads.{order_of, rows_of, taken_orders};

use crate::books::{Book, PLACES, Taken};
use crate::entry::{Entry, Leaving};
use crate::ordered::put_in_order;
use crate::picked::Picked;
use arrayvec::ArrayVec;
use market::events::{Cancellation, Event, Reason};

impl Book {
    /// Whether any order is picked.
    #[tactic(auto, using(crate::proofs::Loops::any_pending))]
    pub fn has(&self, picked: &Picked) -> bool
        ensures { result ≡ not (length (filter (picks picked.now) (pending_orders (rows_of self.now))) == 0) }
    {
        any(&self.entries, picked)
    }

    /// Takes out the orders that are picked, lowest number first.
    pub fn cancel(&mut self, picked: &Picked) -> Taken
        ensures orders { taken_orders result ≡ picked_orders (picks picked.now) (rows_of self.old) }
        ensures after { rows_of self.new ≡ rows_without (picks picked.now) (rows_of self.old) }
    {
        let taken = self.picked(picked);
        self.leave_out(picked);
        taken
    }

    fn picked(&self, picked: &Picked) -> Taken
        ensures { taken_orders result ≡ picked_orders (picks picked.now) (rows_of self.now) }
    {
        collect(&self.entries, picked)
    }

    fn leave_out(&mut self, picked: &Picked)
        ensures { rows_of self.new ≡ rows_without (picks picked.now) (rows_of self.old) }
    {
        keep(&mut self.entries, picked);
    }
}

fn any(entries: &[Entry], picked: &Picked) -> bool
    ensures { result ≡ list_any (λ entry. picks picked.now (order_of entry)) entries.now }
{
    entries.iter().any(|entry| picked.picks(&entry.order))
}

// Leaves out the ones that are picked.
fn keep(entries: &mut ArrayVec<Entry, PLACES>, picked: &Picked)
    ensures { entries.new.items ≡ filter (λ entry. not (picks picked.now (order_of entry))) entries.old.items }
{
    entries.retain(|entry| !picked.picks(&entry.order));
}

// The picked ones, from the last to the first, each put among the others by its number.
fn collect(entries: &[Entry], picked: &Picked) -> Taken
    requires { length entries.now ≤ 256 }
    ensures { taken_orders result ≡ by_number (filter (picks picked.now) (map order_of entries.now)) }
{
    let mut orders = ArrayVec::new();
    for entry in entries.iter().rev() {
        if picked.picks(&entry.order) {
            put_in_order(&mut orders, Leaving(entry.order));
        }
    }
    Taken { orders }
}

impl Taken {
    /// How many orders were taken out.
    pub fn count(&self) -> usize
        ensures { result ≡ length (taken_orders self.now) }
    {
        self.orders.len()
    }

    /// Writes a cancel for each from a place of the list on, and answers the place after them; none if there is no room for all.
    pub fn tell(&self, reason: Reason, events: &mut [Event], from: usize) -> Option<usize>
        ensures answer { result ≡ (if nat_le (from + length (taken_orders self.now)) (length events.old) then Some (from + length (taken_orders self.now)) else None) }
        ensures after { events.new ≡ (if nat_le (from + length (taken_orders self.now)) (length events.old) then take from events.old ++ (map (cancelled reason) (taken_orders self.now) ++ drop (from + length (taken_orders self.now)) events.old) else events.old) }
    {
        let to = from.checked_add(self.count())?;
        if to > events.len() {
            return None;
        }
        self.tell_all(reason, events, from);
        Some(to)
    }

    fn tell_all(&self, reason: Reason, events: &mut [Event], from: usize)
        requires { from + length (taken_orders self.now) ≤ length events.old }
        ensures { Wrote events.old events.new from (from + length (taken_orders self.now)) (map (cancelled reason) (taken_orders self.now)) }
    {
        // By place, since a zip with `iter_mut` leaves a proof without what it wrote.
        for (i, leaving) in self.orders.iter().enumerate() {
            events[from + i] = cancelled(reason, leaving);
        }
    }
}

fn cancelled(reason: Reason, leaving: &Leaving) -> Event
    ensures { result ≡ cancelled reason leaving.now.0 }
{
    Event::Cancelled(Cancellation::of(&leaving.0, reason))
}
