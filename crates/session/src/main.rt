//! A session: messages from standard input are submitted to a venue with three members, and what comes of each is printed.

#![tactic(auto)]

mod output;
mod set_up;

use crate::output::{print_answer, print_events};
use crate::set_up::set_up;
use keepers::reckoner::Reckoner;
use market::calls::LIST_PLACES;
use market::events::{BLANK_EVENT, Event};
use std::alloc::{AllocError, Global};
use std::io;
use std::io::{BufWriter, Read, Write};
use venue::state::Venue;

/// The bytes of 8,000 messages of 8 bytes. Later messages are not read.
const MOST_BYTES: u64 = 64_000;

/// Lines are written once they are so many bytes, and whole: no block ends within a line.
const BLOCK: usize = 65_536;

/// More bytes than the lines of one message have: 257 events of at most 25 bytes, and the answer.
const LINES: usize = 8_192;

fn submit(
    venue: &mut Venue<Reckoner>,
    message: &[u8],
    events: &mut [Event],
    lines: &mut String,
) -> Result<(), AllocError> {
    match venue.submit(message, events) {
        Ok(answer) => {
            print_events(lines, events, answer.events_told())?;
            print_answer(lines, &answer)
        }
        Err(fault) => writeln!(lines, "R {}", u8::from(fault)),
    }
}

fn submit_all<W: Write + Drop>(
    venue: &mut Venue<Reckoner>,
    messages: &[u8],
    events: &mut [Event],
    lines: &mut String,
    output: &mut BufWriter<W>,
) -> io::Result<()> {
    for message in messages.chunks(8) {
        submit(venue, message, events, lines)?;
        // At once: a line written piece by piece pays for the buffer's tests with each number in it.
        output.write_all(lines.as_bytes())?;
        lines.clear();
        if output.buffer().len() >= BLOCK {
            output.flush()?;
        }
    }
    output.flush()
}

fn read_messages(rt: &HostRuntime) -> io::Result<Vec<u8>> {
    let mut bytes = Vec::new(rt.alloc());
    rt.stdin().take(MOST_BYTES).read_to_end(&mut bytes)?;
    Ok(bytes)
}

fn main(rt: HostRuntime) -> io::Result<()> {
    let mut venue = Venue::begin(Reckoner::fresh());
    if let Err(refusal) = set_up(&mut venue) {
        return println!(rt; "the set-up was refused with {}", refusal.number());
    }
    let messages = read_messages(&rt)?;
    let mut events = [BLANK_EVENT; LIST_PLACES];
    let mut output = BufWriter::with_capacity(rt.alloc(), BLOCK + LINES, io::writer(&rt))?;
    let mut lines = String::new(rt.alloc());
    let done = submit_all(
        &mut venue,
        messages.as_slice(),
        &mut events,
        &mut lines,
        &mut output,
    );
    // Taken apart, since dropped it would write once more what a failed write left.
    output.into_parts();
    done
}
