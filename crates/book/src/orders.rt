ghost use Rattle.std.specs.Prelude.{◌≡◌, ◌<◌, [], length, is_ok, if◌then◌else◌, Ok, Err, nat_le};
ghost use Rattle.std.specs.List.{find, position};
ghost use Rattle.std.specs.Option.{option_map};
ghost use Rattle.row.specs.Rates.{precedes as order_precedes};
ghost use Rattle.row.specs.Rows.{inserted};
ghost use Rattle.market.specs.Markets.{put_row, pending_orders};
ghost use Rattle.book.specs.declared.books.BookRefusal.TheVariants.{NoSuchInstrument, Full};
ghost use Rattle.book.specs.Reads.{order_of, entries_of, rows_of, stands_at, first_of, first_filled, filled_at};

use crate::books::{Book, BookRefusal, PLACES};
use crate::entry::Entry;
use crate::ordered::{put_in_order, take_out};
use arrayvec::ArrayVec;
use terms::{Order, Side};

// Side and instrument come one by one, as whoever asks has them; together they would be taken apart again in `is_at`.

impl Book {
    pub fn empty() -> Self
        ensures { entries_of result ≡ [] }
    {
        Book {
            entries: ArrayVec::new(),
        }
    }

    /// How many orders are pending.
    #[tactic(auto, using(crate::proofs::Places::count_is))]
    pub fn count(&self) -> usize
        ensures { result ≡ length (pending_orders (rows_of self.now)) }
    {
        self.entries.len()
    }

    /// Puts an order where its rate and number say.
    pub fn put(&mut self, entry: Entry) -> Result<(), BookRefusal>
        ensures answer { result ≡ (if nat_le 16 entry.instrument then Err NoSuchInstrument else (if nat_le 256 (length (pending_orders (rows_of self.old))) then Err Full else Ok tt)) }
        ensures after { rows_of self.new ≡ (if is_ok result then put_row (rows_of self.old) entry.side entry.instrument (inserted (order_precedes entry.side) entry.order (rows_of self.old entry.side entry.instrument)) else rows_of self.old) }
    {
        if entry.instrument > 15 {
            return Err(BookRefusal::NoSuchInstrument);
        }
        if self.count() >= PLACES {
            return Err(BookRefusal::Full);
        }
        self.put_in_range(entry);
        Ok(())
    }

    fn put_in_range(&mut self, entry: Entry)
        requires { (entry.instrument < 16) × (length (pending_orders (rows_of self.old)) < 256) }
        ensures { rows_of self.new ≡ put_row (rows_of self.old) entry.side entry.instrument (inserted (order_precedes entry.side) entry.order (rows_of self.old entry.side entry.instrument)) }
    {
        put_in_order(&mut self.entries, entry);
    }

    /// The first order of one side of an instrument.
    #[tactic(auto, using(crate::proofs::Places::first_found))]
    pub fn first(&self, side: Side, instrument: u8) -> Option<Order>
        ensures { result ≡ first_of (rows_of self.now side instrument) }
    {
        first_in(&self.entries, side, instrument)
    }

    /// Takes lots from the first order of one side of an instrument. An order with no lots left leaves the book.
    pub fn fill(&mut self, side: Side, instrument: u8, lots: u16)
        ensures { rows_of self.new ≡ put_row (rows_of self.old) side instrument (first_filled lots (rows_of self.old side instrument)) }
    {
        self.fill_first(side, instrument, lots);
    }

    fn fill_first(&mut self, side: Side, instrument: u8, lots: u16)
        ensures { rows_of self.new ≡ put_row (rows_of self.old) side instrument (first_filled lots (rows_of self.old side instrument)) }
    {
        if let Some(place) = find(&self.entries, side, instrument) {
            self.fill_at(place, lots);
        }
    }

    fn fill_at(&mut self, place: usize, lots: u16)
        requires { place < length (entries_of self.old) }
        ensures { entries_of self.new ≡ filled_at place lots (entries_of self.old) }
    {
        if lots < self.entries[place].order.lots {
            self.entries[place].order.lots -= lots;
        } else {
            take_out(&mut self.entries, place);
        }
    }
}

fn first_in(entries: &[Entry], side: Side, instrument: u8) -> Option<Order>
    ensures { result ≡ option_map order_of (find (stands_at side instrument) entries.now) }
{
    entries
        .iter()
        .find(|entry| is_at(entry, side, instrument))
        .map(|entry| entry.order)
}

// Where the first order of one side of an instrument stands.
fn find(entries: &[Entry], side: Side, instrument: u8) -> Option<usize>
    ensures { result ≡ position (stands_at side instrument) entries.now }
{
    entries
        .iter()
        .position(|entry| is_at(entry, side, instrument))
}

pub(crate) fn is_at(entry: &Entry, side: Side, instrument: u8) -> bool
    ensures { result ≡ stands_at side instrument entry.now }
{
    entry.side == side && entry.instrument == instrument
}
