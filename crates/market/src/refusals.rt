ghost use Rattle.std.specs.Prelude.{◌≡◌, Some};
ghost use Rattle.market.specs.declared.refusals.Refusal.TheVariants.{ValueOutOfRange as OutOfRange};
ghost use Rattle.market.specs.Wording.{refusal_words};

use crate::numbers::UnknownNumber;
use std::error::Error;
use std::fmt;

/// Why a venue refuses a call. Grounds are tested in this sequence, and the first one met is the answer.
#[derive(Clone, Copy, PartialEq, Eq, Debug)]
pub enum Refusal {
    /// A list lent for events or for a listing has fewer than 257 places.
    ListTooShort,
    /// The call does not belong to the phase.
    WrongPhase,
    /// The member is above 31 or, except in admit, not admitted.
    NoSuchMember,
    /// The instrument is above 15 or, except in define, not defined.
    NoSuchInstrument,
    /// Admit or define names one that is there.
    AlreadyThere,
    /// A value of admit or define is out of range.
    ValueOutOfRange,
    /// The amount is 0, a deposit would pass 10^12 half-rupees, or a withdrawal passes the deposit.
    AmountOutOfRange,
    /// The member is in reduction mode, or its need would be at least 95 hundredths of the deposit left.
    DepositNeeded,
    /// The member has not opted for the instrument's benchmark.
    BenchmarkNotOpted,
    /// The lots are 0, above 1,000, or above the member's single order limit.
    LotsOutOfRange,
    /// The rate is outside -500,000 to 500,000.
    RateOutOfRange,
    /// The accumulated order limit would be passed.
    AccumulatedLimitPassed,
    /// The limit on orders of over five years would be passed.
    OverFiveYearsLimitPassed,
    /// The lots held and pending on one side of the instrument would pass the keeper's reach.
    ReachPassed,
    /// A day order of a member in reduction mode.
    DayOrderInReduction,
    /// An order of a member in reduction mode that would not lower its need if it were filled whole.
    NeedNotLowered,
    /// No pending order of that number is that member's.
    NoSuchOrder,
    /// A day order while 256 orders are pending.
    BookFull,
    /// All 65,535 numbers are given out.
    NumbersUsedUp,
}

impl Refusal {
    /// The refusal in words, for people.
    pub fn words(&self) -> &'static str
        ensures { result.now ≡ refusal_words self.now }
    {
        match self {
            Refusal::ListTooShort => "the list has fewer than 257 places",
            Refusal::WrongPhase => "the call does not belong to this phase",
            Refusal::NoSuchMember => "there is no such member",
            Refusal::NoSuchInstrument => "there is no such instrument",
            Refusal::AlreadyThere => "it is already there",
            Refusal::ValueOutOfRange => "a value is out of range",
            Refusal::AmountOutOfRange => "the amount is out of range",
            Refusal::DepositNeeded => "the deposit is needed as margin",
            Refusal::BenchmarkNotOpted => "the member has not opted for this benchmark",
            Refusal::LotsOutOfRange => "the lots are 0 or pass the single order limit",
            Refusal::RateOutOfRange => "the rate is out of range",
            Refusal::AccumulatedLimitPassed => "the accumulated order limit is passed",
            Refusal::OverFiveYearsLimitPassed => "the limit on orders of over five years is passed",
            Refusal::ReachPassed => "the lots on this side pass what the margin keeper can hold",
            Refusal::DayOrderInReduction => "no day orders in reduction mode",
            Refusal::NeedNotLowered => "in reduction mode an order has to lower the need",
            Refusal::NoSuchOrder => "the member has no pending order of this number",
            Refusal::BookFull => "256 orders are pending",
            Refusal::NumbersUsedUp => "all order numbers are given out",
        }
    }
}

impl fmt::Display for Refusal {
    ghost output = { λ refusal. Some (refusal_words refusal) };

    fn fmt<W: fmt::Write>(&self, f: &mut fmt::Formatter<W>) -> fmt::Result {
        f.write_str(self.words())
    }
}

impl Error for Refusal {}

// What admit and define are given by number has to stand for something.
impl From<UnknownNumber> for Refusal {
    ghost from_gives = { λ _ refusal. refusal ≡ OutOfRange };

    fn from(_number: UnknownNumber) -> Refusal {
        Self::ValueOutOfRange
    }
}
