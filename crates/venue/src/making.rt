ghost use Rattle.std.specs.Prelude.{◌≡◌};
ghost use Rattle.market.specs.declared.calls.Answer.TheVariants.{Done, Cancelled as CancelledCount, Listing};
ghost use Rattle.market.specs.declared.calls.Call.TheVariants.{AskListing};
ghost use Rattle.market.specs.Calls.{outcome};
ghost use Rattle.venue.specs.Obeys.{Obeys, as_answer};
ghost use Rattle.venue.specs.Reads.{market_of};

use crate::grounds::check_list;
use crate::state::Venue;
use margin::keeper::Keeper;
use market::calls::{Answer, Call, LIST_PLACES, ListingCounts};
use market::events::Event;
use market::orders::Listed;
use market::refusals::Refusal;

fn done(answered: Result<(), Refusal>) -> Result<Answer, Refusal>
    ensures { result ≡ as_answer (λ _. Done) answered }
{
    answered.map(|()| Answer::Done)
}

fn cancelled(answered: Result<usize, Refusal>) -> Result<Answer, Refusal>
    ensures { result ≡ as_answer CancelledCount answered }
{
    answered.map(Answer::Cancelled)
}

impl<K: Keeper> Venue<K> {
    /// Makes any call, or asks any question, and answers as it does. A listing answers its counts.
    pub fn make(&mut self, call: Call, events: &mut [Event]) -> Result<Answer, Refusal>
        ensures { Obeys K.Keeper.charge K.Keeper.REACH call (market_of K.Keeper.sheet self.old) (market_of K.Keeper.sheet self.new) result events.old events.new }
    {
        match call {
            Call::Admit {
                member,
                benchmarks,
                limits,
            } => done(self.admit(member, benchmarks, limits)),
            Call::Define {
                instrument,
                benchmark,
                group,
                factor,
            } => { done(self.define(instrument, benchmark, group, factor)) }
            Call::Open => done(self.open()),
            Call::Deposit { member, amount } => done(self.deposit(member, amount)),
            Call::Withdraw { member, amount } => done(self.withdraw(member, amount)),
            Call::Place(new) => self.place(new, events).map(Answer::Placed),
            Call::Cancel { member, number } => cancelled(self.cancel(member, number, events)),
            Call::CancelAll { member } => cancelled(self.cancel_all(member, events)),
            Call::Close => cancelled(self.close(events)),
            Call::AskStanding { member } => self.standing(member).map(Answer::Standing),
            Call::AskQuotes { instrument } => self
                .quotes(instrument)
                .map(|(bid, offer)| Answer::Quotes(bid, offer)),
            Call::AskListing { instrument } => self
                .count_listing(instrument, events.len())
                .map(Answer::Listing),
        }
    }

    // The counts of a listing, as if a list of so many places were lent for it.
    fn count_listing(&self, instrument: u8, places: usize) -> Result<ListingCounts, Refusal>
        ensures { as_answer Listing result ≡ (outcome K.Keeper.charge K.Keeper.REACH places (market_of K.Keeper.sheet self.now) (AskListing instrument)).answer }
    {
        check_list(places)?;
        let mut list = [Listed::default(); LIST_PLACES];
        self.listing(instrument, &mut list)
    }
}
