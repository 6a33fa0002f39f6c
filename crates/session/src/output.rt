use market::calls::Answer;
use market::events::Event;
use std::alloc::{AllocError, Global};

fn print_event(lines: &mut String, event: &Event) -> Result<(), AllocError> {
    match event {
        Event::Traded(trade) => writeln!(
            lines,
            "T {} {} {} {} {}",
            trade.instrument, trade.buyer, trade.seller, trade.rate, trade.lots
        ),
        Event::Cancelled(cancel) => writeln!(
            lines,
            "C {} {} {} {}",
            cancel.number,
            cancel.member,
            cancel.lots,
            cancel.reason.number()
        ),
    }
}

pub(crate) fn print_events(
    lines: &mut String,
    events: &[Event],
    count: usize,
) -> Result<(), AllocError> {
    // By `take`: the count of an answer is not proved here to be within the list.
    for event in events.iter().take(count) {
        print_event(lines, event)?;
    }
    Ok(())
}

/// The number of a placed order, and 0 for a cancel.
pub(crate) fn print_answer(lines: &mut String, answer: &Answer) -> Result<(), AllocError> {
    let number = match answer {
        Answer::Placed(placed) => placed.number,
        _ => 0,
    };
    writeln!(lines, "A {number}")
}
