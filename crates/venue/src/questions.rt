ghost use Rattle.std.specs.Prelude.{◌≡◌, [], ◌++◌, length, drop, is_ok, if◌then◌else◌};
ghost use Rattle.market.specs.declared.calls.Answer.TheVariants.{Standing as StandingIs, Quotes, Listing};
ghost use Rattle.market.specs.declared.calls.Call.TheVariants.{AskStanding, AskQuotes, AskListing};
ghost use Rattle.market.specs.Calls.{outcome, quote_of};
ghost use Rattle.market.specs.Markets.{listing};
ghost use Rattle.venue.specs.Obeys.{Obeys, as_answer};
ghost use Rattle.venue.specs.Reads.{market_of};

use crate::grounds::check_list;
use crate::state::Venue;
use margin::keeper::Keeper;
use market::calls::ListingCounts;
use market::members::Standing;
use market::orders::{Listed, Quote};
use market::refusals::Refusal;
use terms::Side;

impl<K: Keeper> Venue<K> {
    /// Need, deposit and mode of a member.
    pub fn standing(&self, member: u8) -> Result<Standing, Refusal>
        ensures { Obeys K.Keeper.charge K.Keeper.REACH (AskStanding member) (market_of K.Keeper.sheet self.now) (market_of K.Keeper.sheet self.now) (as_answer StandingIs result) [] [] }
    {
        let row = self.members.admitted(member)?;
        Ok(Standing {
            need: self.keeper.need(member),
            deposit: row.deposit,
            mode: row.mode,
        })
    }

    /// Rate and lots of the first bid and of the first offer, each none on an empty side.
    pub fn quotes(&self, instrument: u8) -> Result<(Option<Quote>, Option<Quote>), Refusal>
        ensures { Obeys K.Keeper.charge K.Keeper.REACH (AskQuotes instrument) (market_of K.Keeper.sheet self.now) (market_of K.Keeper.sheet self.now) (as_answer (λ pair. Quotes pair.0 pair.1) result) [] [] }
    {
        self.instruments.defined(instrument)?;
        Ok((
            self.quote(Side::Bid, instrument),
            self.quote(Side::Offer, instrument),
        ))
    }

    fn quote(&self, side: Side, instrument: u8) -> Option<Quote>
        ensures { result ≡ quote_of ((market_of K.Keeper.sheet self.now).rows side instrument) }
    {
        self.book.first(side, instrument).map(|order| Quote {
            rate: order.rate,
            lots: order.lots,
        })
    }

    /// Writes an instrument's bids first to last and then its offers from the list's first place on, and answers how many.
    pub fn listing(&self, instrument: u8, list: &mut [Listed]) -> Result<ListingCounts, Refusal>
        ensures answer { as_answer Listing result ≡ (outcome K.Keeper.charge K.Keeper.REACH (length list.old) (market_of K.Keeper.sheet self.now) (AskListing instrument)).answer }
        ensures list { list.new ≡ (if is_ok result then listing (market_of K.Keeper.sheet self.now) instrument ++ drop (length (listing (market_of K.Keeper.sheet self.now) instrument)) list.old else list.old) }
    {
        check_list(list.len())?;
        self.instruments.defined(instrument)?;
        self.book
            .list(instrument, list)
            .ok_or(Refusal::ListTooShort)
    }
}
