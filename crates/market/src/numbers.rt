ghost use Rattle.std.specs.Prelude.{◌≡◌};
ghost use Rattle.market.specs.Numbers.{benchmark_number, benchmark_numbered, group_number, group_numbered, benchmarks_number, benchmarks_numbered, reason_number, refusal_number, or_unknown};

use crate::events::Reason;
use crate::instruments::{Benchmark, TenorGroup};
use crate::members::Benchmarks;
use crate::refusals::Refusal;

// `number` and `numbered` are public names of these conversions, which stay for those who call them.

/// A number that stands for nothing where it was given.
#[derive(Clone, Copy, PartialEq, Eq, Debug)]
pub struct UnknownNumber {
    pub number: u8,
}

impl From<Benchmark> for u8 {
    ghost from_gives = { λ benchmark n. n ≡ benchmark_number benchmark };

    fn from(benchmark: Benchmark) -> u8 {
        match benchmark {
            Benchmark::Mibor => 0,
            Benchmark::Mmfor => 1,
        }
    }
}

impl TryFrom<u8> for Benchmark {
    type Error = UnknownNumber;

    ghost try_from_gives = { λ n r. r ≡ or_unknown n (benchmark_numbered n) };

    fn try_from(number: u8) -> Result<Self, UnknownNumber> {
        match number {
            0 => Ok(Benchmark::Mibor),
            1 => Ok(Benchmark::Mmfor),
            _ => Err(UnknownNumber { number }),
        }
    }
}

impl Benchmark {
    pub fn number(&self) -> u8
        ensures { result ≡ benchmark_number self.now }
    {
        u8::from(*self)
    }

    pub fn numbered(number: u8) -> Option<Benchmark>
        ensures { result ≡ benchmark_numbered number }
    {
        Benchmark::try_from(number).ok()
    }
}

impl From<TenorGroup> for u8 {
    ghost from_gives = { λ group n. n ≡ group_number group };

    fn from(group: TenorGroup) -> u8 {
        match group {
            TenorGroup::UpToOneYear => 0,
            TenorGroup::UpToFiveYears => 1,
            TenorGroup::OverFiveYears => 2,
        }
    }
}

impl TryFrom<u8> for TenorGroup {
    type Error = UnknownNumber;

    ghost try_from_gives = { λ n r. r ≡ or_unknown n (group_numbered n) };

    fn try_from(number: u8) -> Result<Self, UnknownNumber> {
        match number {
            0 => Ok(TenorGroup::UpToOneYear),
            1 => Ok(TenorGroup::UpToFiveYears),
            2 => Ok(TenorGroup::OverFiveYears),
            _ => Err(UnknownNumber { number }),
        }
    }
}

impl TenorGroup {
    pub fn number(&self) -> u8
        ensures { result ≡ group_number self.now }
    {
        u8::from(*self)
    }

    pub fn numbered(number: u8) -> Option<TenorGroup>
        ensures { result ≡ group_numbered number }
    {
        TenorGroup::try_from(number).ok()
    }
}

impl From<Benchmarks> for u8 {
    ghost from_gives = { λ benchmarks n. n ≡ benchmarks_number benchmarks };

    fn from(benchmarks: Benchmarks) -> u8 {
        match benchmarks {
            Benchmarks::Mibor => 1,
            Benchmarks::Mmfor => 2,
            Benchmarks::Both => 3,
        }
    }
}

impl TryFrom<u8> for Benchmarks {
    type Error = UnknownNumber;

    ghost try_from_gives = { λ n r. r ≡ or_unknown n (benchmarks_numbered n) };

    fn try_from(number: u8) -> Result<Self, UnknownNumber> {
        match number {
            1 => Ok(Benchmarks::Mibor),
            2 => Ok(Benchmarks::Mmfor),
            3 => Ok(Benchmarks::Both),
            _ => Err(UnknownNumber { number }),
        }
    }
}

impl Benchmarks {
    pub fn number(&self) -> u8
        ensures { result ≡ benchmarks_number self.now }
    {
        u8::from(*self)
    }

    pub fn numbered(number: u8) -> Option<Benchmarks>
        ensures { result ≡ benchmarks_numbered number }
    {
        Benchmarks::try_from(number).ok()
    }
}

impl From<Reason> for u8 {
    ghost from_gives = { λ reason n. n ≡ reason_number reason };

    fn from(reason: Reason) -> u8 {
        match reason {
            Reason::Asked => 1,
            Reason::NotMetAtOnce => 2,
            Reason::OwnOrder => 3,
            Reason::TurnedToReduction => 4,
            Reason::NeedNotLowered => 5,
            Reason::Closing => 6,
        }
    }
}

impl Reason {
    pub fn number(&self) -> u8
        ensures { result ≡ reason_number self.now }
    {
        u8::from(*self)
    }
}

impl From<Refusal> for u8 {
    ghost from_gives = { λ refusal n. n ≡ refusal_number refusal };

    fn from(refusal: Refusal) -> u8 {
        match refusal {
            Refusal::ListTooShort => 3,
            Refusal::WrongPhase => 4,
            Refusal::NoSuchMember => 5,
            Refusal::NoSuchInstrument => 6,
            Refusal::AlreadyThere => 7,
            Refusal::ValueOutOfRange => 8,
            Refusal::AmountOutOfRange => 9,
            Refusal::DepositNeeded => 10,
            Refusal::BenchmarkNotOpted => 11,
            Refusal::LotsOutOfRange => 12,
            Refusal::RateOutOfRange => 13,
            Refusal::AccumulatedLimitPassed => 14,
            Refusal::OverFiveYearsLimitPassed => 15,
            Refusal::ReachPassed => 16,
            Refusal::DayOrderInReduction => 17,
            Refusal::NeedNotLowered => 18,
            Refusal::NoSuchOrder => 19,
            Refusal::BookFull => 20,
            Refusal::NumbersUsedUp => 21,
        }
    }
}

impl Refusal {
    pub fn number(&self) -> u8
        ensures { result ≡ refusal_number self.now }
    {
        u8::from(*self)
    }
}
