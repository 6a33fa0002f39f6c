//! Calls, events and answers as people read them.

use crate::script::{INSTRUMENTS, MEMBERS};
use market::calls::{Answer, Call};
use market::events::{Cancellation, Event, Trade};
use market::members::{Mode, Standing};
use market::orders::{NewOrder, Quote};
use market::refusals::Refusal;
use std::alloc::{AllocError, Global};
use terms::{Side, Term};

fn member_name(member: u8) -> &'static str {
    MEMBERS
        .get(usize::from(member))
        .copied()
        .unwrap_or("nobody")
}

fn instrument_name(instrument: u8) -> &'static str {
    INSTRUMENTS
        .get(usize::from(instrument))
        .copied()
        .unwrap_or("not known")
}

fn side_name(side: Side) -> &'static str {
    match side {
        Side::Bid => "bid",
        Side::Offer => "offer",
    }
}

fn term_name(term: Term) -> &'static str {
    match term {
        Term::Day => "day",
        Term::Immediate => "immediate",
    }
}

fn mode_mark(mode: Mode) -> &'static str {
    match mode {
        Mode::Normal => "",
        Mode::Reduction => " REDUCTION",
    }
}

fn lots_name(lots: u16) -> &'static str {
    if lots == 1 { "lot" } else { "lots" }
}

/// A member's need, its deposit, and a mark if it is in reduction mode.
pub(crate) fn standing_words(
    heap: Global,
    member: u8,
    standing: &Standing,
) -> Result<String, AllocError> {
    let need = grouped(heap, standing.need)?;
    let deposit = grouped(heap, standing.deposit)?;
    format!(in heap;
        "{} {need} of {deposit}{}",
        member_name(member),
        mode_mark(standing.mode)
    )
}

// A whole number with a comma between thousands.
// As in the program `demo`. In a crate for both it would need a contract: that of the text was tried, and the proof of groups
// with zeros before them did not close.
fn grouped(heap: Global, n: u64) -> Result<String, AllocError> {
    let (thousands, units) = (n / 1_000, n % 1_000);
    let (millions, thousand) = (thousands / 1_000, thousands % 1_000);
    if thousands == 0 {
        format!(in heap; "{units}")
    } else if millions == 0 {
        format!(in heap; "{thousand},{units:03}")
    } else {
        format!(in heap; "{millions},{thousand:03},{units:03}")
    }
}

// A rate in per cent, to the ten-thousandth.
fn percent(heap: Global, rate: i32) -> Result<String, AllocError> {
    let sign = if rate < 0 { "-" } else { "" };
    let amount = rate.unsigned_abs();
    format!(in heap; "{sign}{}.{:04} %", amount / 10_000, amount % 10_000)
}

fn order_line(heap: Global, new: &NewOrder) -> Result<String, AllocError> {
    let rate = percent(heap, new.rate)?;
    format!(in heap;
        "{}: {} {} of {} {}, {}, at {rate}",
        member_name(new.member),
        term_name(new.term),
        side_name(new.side),
        new.lots,
        lots_name(new.lots),
        instrument_name(new.instrument)
    )
}

fn amount_line(heap: Global, member: u8, verb: &str, amount: u64) -> Result<String, AllocError> {
    let amount = grouped(heap, amount)?;
    format!(in heap; "{} {verb} {amount}", member_name(member))
}

fn set_up_line(heap: Global, call: &Call) -> Result<String, AllocError> {
    match call {
        Call::Admit { member, .. } => format!(in heap;
            "the operator admits {}",
            member_name(*member)
        ),
        Call::Define {
            instrument,
            factor,
            ..
        } => format!(in heap;
            "the operator defines {}, factor {factor}",
            instrument_name(*instrument)
        ),
        Call::Open => String::from_str(heap, "the operator opens the venue"),
        _ => String::from_str(heap, "the operator closes the venue"),
    }
}

fn question_line(heap: Global, question: &str, instrument: u8) -> Result<String, AllocError> {
    format!(in heap; "{question}, {}?", instrument_name(instrument))
}

/// A call in words.
pub(crate) fn call_line(heap: Global, call: &Call) -> Result<String, AllocError> {
    match call {
        Call::Deposit { member, amount } => amount_line(heap, *member, "deposits", *amount),
        Call::Withdraw { member, amount } => amount_line(heap, *member, "withdraws", *amount),
        Call::Place(new) => order_line(heap, new),
        Call::Cancel { member, number } => {
            format!(in heap; "{} cancels order {number}", member_name(*member))
        }
        Call::CancelAll { member } => format!(in heap;
            "{} cancels all its orders",
            member_name(*member)
        ),
        Call::AskStanding { member } => format!(in heap;
            "the standing of {}?",
            member_name(*member)
        ),
        Call::AskQuotes { instrument } => question_line(heap, "best bid and offer", *instrument),
        Call::AskListing { instrument } => question_line(heap, "orders pending", *instrument),
        _ => set_up_line(heap, call),
    }
}

fn trade_line(heap: Global, trade: &Trade) -> Result<String, AllocError> {
    let rate = percent(heap, trade.rate)?;
    format!(in heap;
        "trade    {} {}, {}, at {rate}: {} buys by order {}, {} sells by order {}",
        trade.lots,
        lots_name(trade.lots),
        instrument_name(trade.instrument),
        member_name(trade.buyer),
        trade.buy_number,
        member_name(trade.seller),
        trade.sell_number
    )
}

fn cancel_line(heap: Global, cancel: &Cancellation) -> Result<String, AllocError> {
    format!(in heap;
        "cancel   {} {} of order {}, {}: {} (reason {})",
        cancel.lots,
        lots_name(cancel.lots),
        cancel.number,
        member_name(cancel.member),
        cancel.reason,
        cancel.reason.number()
    )
}

/// An event in words.
pub(crate) fn event_line(heap: Global, event: &Event) -> Result<String, AllocError> {
    match event {
        Event::Traded(trade) => trade_line(heap, trade),
        Event::Cancelled(cancel) => cancel_line(heap, cancel),
    }
}

fn quote_words(heap: Global, quote: &Option<Quote>) -> Result<String, AllocError> {
    match quote {
        Some(quote) => {
            let rate = percent(heap, quote.rate)?;
            format!(in heap; "{} lots at {rate}", quote.lots)
        }
        None => String::from_str(heap, "none"),
    }
}

fn quotes_line(
    heap: Global,
    bid: &Option<Quote>,
    offer: &Option<Quote>,
) -> Result<String, AllocError> {
    let bid = quote_words(heap, bid)?;
    let offer = quote_words(heap, offer)?;
    format!(in heap; "bid {bid}, offer {offer}")
}

/// What a call answered, in words.
pub(crate) fn answer_line(heap: Global, answer: &Answer) -> Result<String, AllocError> {
    match answer {
        Answer::Done => String::from_str(heap, "done"),
        Answer::Placed(placed) => format!(in heap; "accepted as order {}", placed.number),
        Answer::Cancelled(count) => format!(in heap; "done, {count} cancelled"),
        Answer::Standing(standing) => {
            format!(in heap; "need {} of {}", standing.need, standing.deposit)
        }
        Answer::Quotes(bid, offer) => quotes_line(heap, bid, offer),
        Answer::Listing(counts) => {
            format!(in heap; "{} bids and {} offers", counts.bids, counts.offers)
        }
    }
}

pub(crate) fn refusal_line(heap: Global, refusal: &Refusal) -> Result<String, AllocError> {
    format!(in heap; "REFUSED {}: {refusal}", refusal.number())
}
