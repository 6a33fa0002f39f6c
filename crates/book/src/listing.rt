ghost use Rattle.std.specs.Prelude.{◌≡◌, ◌+◌, ◌≤◌, ◌++◌, map, length, drop, if◌then◌else◌, Some, None, nat_lt};
ghost use Rattle.market.specs.Lists.{Wrote};
ghost use Rattle.market.specs.Markets.{listed};
ghost use Rattle.book.specs.Reads.{rows_in, rows_of, counts_of, listing_in};

use crate::books::Book;
use crate::entry::Entry;
use crate::orders::is_at;
use market::calls::{LIST_PLACES, ListingCounts};
use market::orders::Listed;
use terms::Side;

impl Book {
    /// Writes an instrument's bids first to last, then its offers, and answers how many; none if the list has fewer than 257 places.
    pub fn list(&self, instrument: u8, list: &mut [Listed]) -> Option<ListingCounts>
        ensures answer { result ≡ (if nat_lt (length list.old) 257 then None else Some (counts_of (rows_of self.now) instrument)) }
        ensures after { list.new ≡ (if nat_lt (length list.old) 257 then list.old else listing_in (rows_of self.now) instrument ++ drop (length (listing_in (rows_of self.now) instrument)) list.old) }
    {
        if list.len() < LIST_PLACES {
            return None;
        }
        Some(self.list_all(instrument, list))
    }

    fn list_all(&self, instrument: u8, list: &mut [Listed]) -> ListingCounts
        requires { 257 ≤ length list.old }
        ensures answer { result ≡ counts_of (rows_of self.now) instrument }
        ensures after { list.new ≡ listing_in (rows_of self.now) instrument ++ drop (length (listing_in (rows_of self.now) instrument)) list.old }
    {
        let entries = self.entries.as_slice();
        let bids = list_side(entries, Side::Bid, instrument, list, 0);
        let end = list_side(entries, Side::Offer, instrument, list, bids);
        ListingCounts {
            bids,
            offers: end - bids,
        }
    }
}

// Writes one side from a place of the list on, and answers the place after it.
fn list_side(
    entries: &[Entry],
    side: Side,
    instrument: u8,
    list: &mut [Listed],
    from: usize,
) -> usize
    requires { from + length (rows_in entries.now side instrument) ≤ length list.old }
    ensures { Wrote list.old list.new from result (map (listed side) (rows_in entries.now side instrument)) }
{
    let mut place = from;
    for entry in entries {
        if is_at(entry, side, instrument) {
            // By place, since a zip with `iter_mut` leaves a proof without what it wrote.
            list[place] = listed(side, entry);
            place += 1;
        }
    }
    place
}

fn listed(side: Side, entry: &Entry) -> Listed
    ensures { result ≡ listed side entry.now.order }
{
    Listed {
        side,
        rate: entry.order.rate,
        lots: entry.order.lots,
        number: entry.order.number,
        member: entry.order.member,
    }
}
