ghost use Rattle.std.specs.Prelude.{◌≡◌, ◌<◌, length, Ok, Err, IfOk, OnOk, IfErr};
ghost use Rattle.market.specs.declared.calls.Answer.TheVariants.{Placed as PlacedAs};
ghost use Rattle.market.specs.declared.calls.Call.TheVariants.{Place};
ghost use Rattle.market.specs.Grounds.{checked, entry_grounds, term_grounds, limit_grounds, mode_grounds, place_grounds, pending_over_five_years};
ghost use Rattle.market.specs.Limits.{opted, limit_for, highest_limit, accumulated_limit, is_over_five_years};
ghost use Rattle.market.specs.TableRows.{admitted_row, defined_row, instrument_row};
ghost use Rattle.venue.specs.Obeys.{Obeys, as_answer};
ghost use Rattle.venue.specs.Reads.{market_of};

use crate::event_list::EventList;
use crate::incoming::IncomingOrder;
use crate::state::{HIGHEST_LOTS, HIGHEST_RATE, Venue};
use book::books::PLACES;
use book::part::Part;
use margin::keeper::Keeper;
use market::calls::Placed;
use market::events::Event;
use market::instruments::{Benchmark, Instrument, TenorGroup};
use market::members::{Benchmarks, Limits, Member, Mode};
use market::orders::NewOrder;
use market::refusals::Refusal;
use terms::Term;

// Whether a member has opted for a benchmark.
fn has_opted(benchmarks: Benchmarks, benchmark: Benchmark) -> bool
    ensures { result ≡ opted benchmarks benchmark }
{
    match benchmarks {
        Benchmarks::Mibor => benchmark == Benchmark::Mibor,
        Benchmarks::Mmfor => benchmark == Benchmark::Mmfor,
        Benchmarks::Both => true,
    }
}

// The single order limit for a group of tenors.
fn single_limit(group: TenorGroup, limits: &Limits) -> u16
    ensures { result ≡ limit_for group limits.now }
{
    match group {
        TenorGroup::UpToOneYear => limits.up_to_one_year,
        TenorGroup::UpToFiveYears => limits.up_to_five_years,
        TenorGroup::OverFiveYears => limits.over_five_years,
    }
}

fn highest_of(limits: &Limits) -> u16
    ensures { result ≡ highest_limit limits.now }
{
    limits
        .up_to_one_year
        .max(limits.up_to_five_years.max(limits.over_five_years))
}

// The most lots that a member may have pending in all instruments.
fn accumulated_of(member: &Member) -> u32
    ensures { result ≡ accumulated_limit (admitted_row member.now) }
{
    let highest = u32::from(highest_of(&member.limits));
    match member.benchmarks {
        Benchmarks::Mibor | Benchmarks::Mmfor => highest * 4,
        Benchmarks::Both => highest * 5,
    }
}

fn is_long(instrument: &Instrument) -> bool
    ensures { result ≡ is_over_five_years instrument.now.group }
{
    instrument.group == TenorGroup::OverFiveYears
}

fn is_long_row(row: &Option<Instrument>) -> bool
    ensures { result ≡ is_over_five_years (instrument_row row.now).group }
{
    row.as_ref().is_some_and(is_long)
}

// The grounds of the member's benchmarks and single order limit, and of the rate.
fn check_terms(new: &NewOrder, member: &Member, instrument: &Instrument) -> Result<(), Refusal>
    ensures { result ≡ checked (term_grounds new.now (admitted_row member.now) (defined_row instrument.now)) }
{
    if !has_opted(member.benchmarks, instrument.benchmark) {
        return Err(Refusal::BenchmarkNotOpted);
    }
    let limit = single_limit(instrument.group, &member.limits);
    if new.lots == 0 || new.lots > HIGHEST_LOTS || new.lots > limit {
        return Err(Refusal::LotsOutOfRange);
    }
    if new.rate < -HIGHEST_RATE || new.rate > HIGHEST_RATE {
        return Err(Refusal::RateOutOfRange);
    }
    Ok(())
}

impl<K: Keeper> Venue<K> {
    // A member's lots pending in the instruments of over five years.
    fn pending_long(&self, member: u8) -> u32
        ensures value { result ≡ pending_over_five_years (market_of K.Keeper.sheet self.now) member }
        ensures few { result < 300000000 }
    {
        // A loop: in generic code a chain leaves the bound of its sum unproved, as tried for a keeper's charge. And by index, not by a
        // zip with `0u8..`, of whose numbers a proof would have to say that they are the rows' places.
        let mut sum: u32 = 0;
        for (i, row) in self.instruments.rows.iter().enumerate() {
            if is_long_row(row) {
                sum += self.book.pending(Part::Instrument(i as u8), member);
            }
        }
        sum
    }
}

impl<K: Keeper> Venue<K> {
    fn check_limits(
        &self,
        new: &NewOrder,
        member: &Member,
        instrument: &Instrument,
    ) -> Result<(), Refusal>
        requires member { admitted_row member.now ≡ (market_of K.Keeper.sheet self.now).members new.now.member }
        requires instrument { defined_row instrument.now ≡ (market_of K.Keeper.sheet self.now).instruments new.now.instrument }
        ensures { result ≡ checked (limit_grounds K.Keeper.charge K.Keeper.REACH (market_of K.Keeper.sheet self.now) new.now) }
    {
        let lots = u32::from(new.lots);
        if self.book.pending(Part::Whole, new.member) + lots > accumulated_of(member) {
            return Err(Refusal::AccumulatedLimitPassed);
        }
        if is_long(instrument)
            && self.pending_long(new.member) + lots > u32::from(highest_of(&member.limits))
        {
            return Err(Refusal::OverFiveYearsLimitPassed);
        }
        let held = self.keeper.held(new.member, new.instrument, new.side);
        let pending = self
            .book
            .pending(Part::Row(new.side, new.instrument), new.member);
        // By the call and not by `K::REACH`, so that the call's contract is about what is tested here.
        if u64::from(held) + u64::from(pending) + u64::from(lots) > u64::from(K::highest_total()) {
            return Err(Refusal::ReachPassed);
        }
        Ok(())
    }

    fn check_mode(&self, new: &NewOrder, member: &Member) -> Result<(), Refusal>
        requires { admitted_row member.now ≡ (market_of K.Keeper.sheet self.now).members new.now.member }
        ensures { result ≡ checked (mode_grounds K.Keeper.charge K.Keeper.REACH (market_of K.Keeper.sheet self.now) new.now) }
    {
        let is_day = new.term == Term::Day;
        if member.mode == Mode::Reduction {
            if is_day {
                return Err(Refusal::DayOrderInReduction);
            }
            if !self.lowers_need(new, new.lots) {
                return Err(Refusal::NeedNotLowered);
            }
        }
        if is_day && self.book.count() >= PLACES {
            return Err(Refusal::BookFull);
        }
        if self.given == u16::MAX {
            return Err(Refusal::NumbersUsedUp);
        }
        Ok(())
    }

    // Who places what, and where: the rows of the member and of the instrument.
    fn check_entry(&self, new: &NewOrder, places: usize) -> Result<(&Member, &Instrument), Refusal>
        ensures found { IfOk result (λ rows. (admitted_row rows.0.now ≡ (market_of K.Keeper.sheet self.now).members new.now.member) × (defined_row rows.1.now ≡ (market_of K.Keeper.sheet self.now).instruments new.now.instrument)) }
        ensures passed { OnOk result (Ok tt ≡ checked (entry_grounds K.Keeper.charge K.Keeper.REACH places (market_of K.Keeper.sheet self.now) new.now)) }
        ensures refused { IfErr result (λ refusal. Err refusal ≡ checked (entry_grounds K.Keeper.charge K.Keeper.REACH places (market_of K.Keeper.sheet self.now) new.now)) }
    {
        self.check_open_with(places)?;
        let member = self.members.admitted(new.member)?;
        let instrument = self.instruments.defined(new.instrument)?;
        check_terms(new, member, instrument)?;
        Ok((member, instrument))
    }

    fn check_place(&self, new: &NewOrder, places: usize) -> Result<(), Refusal>
        ensures { result ≡ checked (place_grounds K.Keeper.charge K.Keeper.REACH places (market_of K.Keeper.sheet self.now) new.now) }
    {
        let (member, instrument) = self.check_entry(new, places)?;
        self.check_limits(new, member, instrument)?;
        self.check_mode(new, member)
    }
}

impl<K: Keeper> Venue<K> {
    /// Places an order: it meets the opposite orders of its instrument, and its rest becomes pending or is cancelled.
    pub fn place(&mut self, new: NewOrder, events: &mut [Event]) -> Result<Placed, Refusal>
        ensures { Obeys K.Keeper.charge K.Keeper.REACH (Place new) (market_of K.Keeper.sheet self.old) (market_of K.Keeper.sheet self.new) (as_answer PlacedAs result) events.old events.new }
    {
        self.check_place(&new, events.len())?;
        Ok(self.place_checked(&new, events))
    }

    fn place_checked(&mut self, new: &NewOrder, events: &mut [Event]) -> Placed
        requires { Ok tt ≡ checked (place_grounds K.Keeper.charge K.Keeper.REACH (length events.old) (market_of K.Keeper.sheet self.old) new.now) }
        ensures { Obeys K.Keeper.charge K.Keeper.REACH (Place new.now) (market_of K.Keeper.sheet self.old) (market_of K.Keeper.sheet self.new) (Ok (PlacedAs result)) events.old events.new }
    {
        let mut list = EventList::of(events);
        let number = self.take_in(new, &mut list);
        Placed {
            number,
            events: list.told,
        }
    }

    // Gives a placed order its number, lets it meet and settles its rest.
    fn take_in(&mut self, new: &NewOrder, list: &mut EventList<'_>) -> u16
        requires from_the_start { list.old.told ≡ 0 }
        requires passed { Ok tt ≡ checked (place_grounds K.Keeper.charge K.Keeper.REACH (length list.old.places.now) (market_of K.Keeper.sheet self.old) new.now) }
        ensures same_list { list.new.places.ghost_name ≡ list.old.places.ghost_name }
        ensures obeys { Obeys K.Keeper.charge K.Keeper.REACH (Place new.now) (market_of K.Keeper.sheet self.old) (market_of K.Keeper.sheet self.new) (Ok (PlacedAs (record { number = result; events = list.new.told }))) list.old.places.now list.new.places.now }
    {
        let number = self.given + 1;
        self.given = number;
        let mut incoming = IncomingOrder {
            number,
            order: *new,
            rest: new.lots,
        };
        self.meet(&mut incoming, list);
        self.settle(&incoming, list);
        number
    }
}
