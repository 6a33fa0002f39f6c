ghost use Rattle.std.specs.Prelude.{◌≡◌, ◌<◌, []};
ghost use Rattle.margin.specs.Sheets.{after_set_factor};
ghost use Rattle.market.specs.declared.calls.Answer.TheVariants.{Done};
ghost use Rattle.market.specs.declared.calls.Call.TheVariants.{Admit, Define, Open};
ghost use Rattle.market.specs.declared.members.Mode.TheVariants.{Reduction};
ghost use Rattle.market.specs.Calls.{admitted, defined};
ghost use Rattle.market.specs.Grounds.{admit_grounds, define_grounds};
ghost use Rattle.market.specs.Markets.{begun, with_phase, with_member, with_instrument, with_sheet};
ghost use Rattle.market.specs.TableRows.{admitted_row, defined_row};
ghost use Rattle.venue.specs.Obeys.{Obeys, as_answer, Passes};
ghost use Rattle.venue.specs.Reads.{market_of};

use crate::grounds::check_phase;
use crate::state::{HIGHEST_FACTOR, HIGHEST_LOTS, INSTRUMENTS, MEMBERS, Table, Venue};
use book::books::Book;
use margin::keeper::Keeper;
use market::calls::Phase;
use market::instruments::{Benchmark, Instrument, TenorGroup};
use market::members::{Benchmarks, Limits, Member, Mode};
use market::refusals::Refusal;

impl<K: Keeper> Venue<K> {
    /// A venue in set-up with no member, instrument or order.
    pub fn begin(keeper: K) -> Self
        ensures { market_of K.Keeper.sheet result ≡ begun (K.Keeper.sheet keeper) }
    {
        Self::blank(Phase::SetUp, keeper)
    }

    fn blank(phase: Phase, keeper: K) -> Self
        ensures { market_of K.Keeper.sheet result ≡ with_phase (begun (K.Keeper.sheet keeper)) phase }
    {
        Venue {
            phase,
            members: Table {
                rows: [None; MEMBERS],
            },
            instruments: Table {
                rows: [None; INSTRUMENTS],
            },
            book: Book::empty(),
            given: 0,
            keeper,
        }
    }

    /// Gives a member its benchmarks, by number, and its limits. It begins with no deposit, in reduction mode.
    pub fn admit(&mut self, member: u8, benchmarks: u8, limits: Limits) -> Result<(), Refusal>
        ensures { Obeys K.Keeper.charge K.Keeper.REACH (Admit member benchmarks limits) (market_of K.Keeper.sheet self.old) (market_of K.Keeper.sheet self.new) (as_answer (λ _. Done) result) [] [] }
    {
        let benchmarks = self.check_admit(member, benchmarks, &limits)?;
        self.enter_member(member, benchmarks, limits);
        Ok(())
    }

    /// Gives an instrument its benchmark and group of tenors, by number, and its factor, and sets the factor in the keeper.
    pub fn define(
        &mut self,
        instrument: u8,
        benchmark: u8,
        group: u8,
        factor: u32,
    ) -> Result<(), Refusal>
        ensures { Obeys K.Keeper.charge K.Keeper.REACH (Define instrument benchmark group factor) (market_of K.Keeper.sheet self.old) (market_of K.Keeper.sheet self.new) (as_answer (λ _. Done) result) [] [] }
    {
        let row = self.check_define(instrument, benchmark, group, factor)?;
        self.enter_instrument(instrument, row);
        self.set_factor(instrument, factor);
        Ok(())
    }

    /// Ends set-up: orders may be placed.
    pub fn open(&mut self) -> Result<(), Refusal>
        ensures { Obeys K.Keeper.charge K.Keeper.REACH Open (market_of K.Keeper.sheet self.old) (market_of K.Keeper.sheet self.new) (as_answer (λ _. Done) result) [] [] }
    {
        check_phase(self.phase, Phase::SetUp)?;
        self.phase = Phase::Open;
        Ok(())
    }

    fn check_admit(
        &self,
        member: u8,
        benchmarks: u8,
        limits: &Limits,
    ) -> Result<Benchmarks, Refusal>
        ensures { Passes (admit_grounds (market_of K.Keeper.sheet self.now) member benchmarks limits.now) (admitted benchmarks limits.now).benchmarks result }
    {
        check_phase(self.phase, Phase::SetUp)?;
        if usize::from(member) >= MEMBERS {
            return Err(Refusal::NoSuchMember);
        }
        if self.members.admitted(member).is_ok() {
            return Err(Refusal::AlreadyThere);
        }
        let benchmarks = Benchmarks::try_from(benchmarks)?;
        if limits.up_to_one_year > HIGHEST_LOTS
            || limits.up_to_five_years > HIGHEST_LOTS
            || limits.over_five_years > HIGHEST_LOTS
        {
            return Err(Refusal::ValueOutOfRange);
        }
        Ok(benchmarks)
    }

    fn enter_member(&mut self, member: u8, benchmarks: Benchmarks, limits: Limits)
        requires { member < 32 }
        ensures { market_of K.Keeper.sheet self.new ≡ with_member (market_of K.Keeper.sheet self.old) member (admitted_row (record { benchmarks = benchmarks; limits = limits; deposit = 0; mode = Reduction })) }
    {
        self.members.rows[usize::from(member)] = Some(Member {
            benchmarks,
            limits,
            deposit: 0,
            mode: Mode::Reduction,
        });
    }

    fn check_define(
        &self,
        instrument: u8,
        benchmark: u8,
        group: u8,
        factor: u32,
    ) -> Result<Instrument, Refusal>
        ensures { Passes (define_grounds (market_of K.Keeper.sheet self.now) instrument benchmark group factor) (record { benchmark = (defined benchmark group).benchmark; group = (defined benchmark group).group }) result }
    {
        check_phase(self.phase, Phase::SetUp)?;
        if usize::from(instrument) >= INSTRUMENTS {
            return Err(Refusal::NoSuchInstrument);
        }
        if self.instruments.defined(instrument).is_ok() {
            return Err(Refusal::AlreadyThere);
        }
        let benchmark = Benchmark::try_from(benchmark)?;
        let group = TenorGroup::try_from(group)?;
        if !(1..=HIGHEST_FACTOR).contains(&factor) {
            return Err(Refusal::ValueOutOfRange);
        }
        Ok(Instrument { benchmark, group })
    }

    fn enter_instrument(&mut self, instrument: u8, row: Instrument)
        requires { instrument < 16 }
        ensures { market_of K.Keeper.sheet self.new ≡ with_instrument (market_of K.Keeper.sheet self.old) instrument (defined_row row) }
    {
        self.instruments.rows[usize::from(instrument)] = Some(row);
    }

    // Over a fresh keeper the grounds leave nothing that it could refuse.
    fn set_factor(&mut self, instrument: u8, factor: u32)
        ensures { market_of K.Keeper.sheet self.new ≡ with_sheet (market_of K.Keeper.sheet self.old) (after_set_factor (market_of K.Keeper.sheet self.old).sheet instrument factor) }
    {
        let _ = self.keeper.set_factor(instrument, factor);
    }
}
