//! Worked examples of the market's rules, and the worked session as a log of calls.

#![tactic(auto)]

ghost use Rattle.std.specs.Prelude.{◌≡◌};
ghost use Rattle.worked.specs.Examples.{WorkedExamples};
ghost use Rattle.worked.specs.Session.{session_calls};
ghost use Rattle.worked.specs.Venues.{limits_of, order_at};

use market::calls::Call;
use market::members::Limits;
use market::orders::NewOrder;
use terms::{Side, Term};

/// The calls of the worked session: an instrument is defined, three members are admitted, and six orders placed. Its answers and
/// events are among the worked examples, which this contract states.
#[tactic(auto, using(crate::proofs::Examples::worked_examples))]
pub fn session_log() -> [Call; 14]
    ensures calls { result ≡ session_calls }
    ensures worked_examples { WorkedExamples }
{
    calls()
}

fn calls() -> [Call; 14]
    ensures { result ≡ session_calls }
{
    [
        Call::Define {
            instrument: 0,
            benchmark: 0,
            group: 1,
            factor: 100,
        },
        admit(0),
        admit(1),
        admit(2),
        deposit(0, 10_000),
        deposit(1, 10_000),
        deposit(2, 2_000),
        Call::Open,
        order(0, Side::Bid, Term::Day, 61_000, 5),
        order(1, Side::Bid, Term::Day, 61_000, 5),
        order(2, Side::Offer, Term::Day, 60_900, 10),
        order(2, Side::Bid, Term::Day, 60_000, 1),
        order(1, Side::Offer, Term::Day, 61_200, 4),
        order(2, Side::Bid, Term::Immediate, 61_200, 6),
    ]
}

// For MIBOR, with a limit of 10 lots in each group of tenors.
fn admit(member: u8) -> Call
    ensures { result ≡ Call.Admit member 1 (limits_of 10) }
{
    Call::Admit {
        member,
        benchmarks: 1,
        limits: Limits {
            up_to_one_year: 10,
            up_to_five_years: 10,
            over_five_years: 10,
        },
    }
}

fn deposit(member: u8, amount: u64) -> Call
    ensures { result ≡ Call.Deposit member amount }
{
    Call::Deposit { member, amount }
}

// In instrument 0.
fn order(member: u8, side: Side, term: Term, rate: i32, lots: u16) -> Call
    ensures { result ≡ order_at rate 0 member side term lots }
{
    Call::Place(NewOrder {
        member,
        instrument: 0,
        side,
        term,
        rate,
        lots,
    })
}
