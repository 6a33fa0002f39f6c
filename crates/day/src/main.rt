//! A day at the venue, told step by step.

#![tactic(auto)]

mod script;
mod show;

use crate::script::{MEMBERS, STEPS, Step};
use crate::show::{answer_line, call_line, event_line, refusal_line, standing_words};
use keepers::gross::GrossKeeper;
use keepers::reckoner::Reckoner;
use keepers::running::RunningKeeper;
use margin::keeper::Keeper;
use market::calls::{Answer, LIST_PLACES};
use market::events::{BLANK_EVENT, Event};
use market::refusals::Refusal;
use std::io;
use venue::state::Venue;

const INTRODUCTION: &str = "A day at the venue

The operator defines three instruments and admits four members; they deposit, trade and close.
Factors are in rupees a lot, needs and deposits in half-rupees. The margin keeper is the reckoner:
a member needs factor x (2 x the larger of its lots bought and sold - the smaller) in each instrument.
At 95 hundredths of its deposit a member turns to risk reduction, below 90 it is normal again.
After each step stand the members' needs, each with its deposit; members in reduction mode are marked.";

fn tell(rt: &HostRuntime, line: &str) -> io::Result<()> {
    println!(rt; "         {line}")
}

fn tell_events(rt: &HostRuntime, events: &[Event], count: usize) -> io::Result<()> {
    // By `take`: the count of an answer is not proved here to be within the list.
    for event in events.iter().take(count) {
        tell(rt, event_line(rt.alloc(), event)?.as_str())?;
    }
    Ok(())
}

fn tell_result(
    rt: &HostRuntime,
    answered: &Result<Answer, Refusal>,
    events: &[Event],
) -> io::Result<()> {
    match answered {
        Ok(answer) => {
            tell(rt, answer_line(rt.alloc(), answer)?.as_str())?;
            tell_events(rt, events, answer.events_told())
        }
        Err(refusal) => tell(rt, refusal_line(rt.alloc(), refusal)?.as_str()),
    }
}

// The members that are admitted, on one line.
fn tell_standings<K: Keeper>(rt: &HostRuntime, venue: &Venue<K>) -> io::Result<()> {
    let mut line = String::new(rt.alloc());
    for (member, _) in (0u8..).zip(MEMBERS.iter()) {
        if let Ok(standing) = venue.standing(member) {
            let words = standing_words(rt.alloc(), member, &standing)?;
            write!(line, "| {words} ")?;
        }
    }
    if line.is_empty() {
        return Ok(());
    }
    tell(rt, line.as_str())
}

fn tell_step(
    rt: &HostRuntime,
    venue: &mut Venue<Reckoner>,
    step: &Step,
    events: &mut [Event],
) -> io::Result<()> {
    let line = call_line(rt.alloc(), &step.call)?;
    println!(rt; "\n{}    {line}", step.time)?;
    let result = venue.make(step.call, events);
    tell_result(rt, &result, events)?;
    if !step.note.is_empty() {
        println!(rt; "         ({})", step.note)?;
    }
    tell_standings(rt, venue)
}

fn tell_day(rt: &HostRuntime, venue: &mut Venue<Reckoner>, events: &mut [Event]) -> io::Result<()> {
    for step in &STEPS {
        tell_step(rt, venue, step, events)?;
    }
    Ok(())
}

fn play<K: Keeper>(venue: &mut Venue<K>, events: &mut [Event]) {
    for step in &STEPS {
        let _ = venue.make(step.call, events);
    }
}

fn compare(rt: &HostRuntime, events: &mut [Event]) -> io::Result<()> {
    let mut running = Venue::begin(RunningKeeper::fresh());
    play(&mut running, events);
    println!(rt; "\nThe same calls over the running keeper, which keeps each need up to date:")?;
    tell_standings(rt, &running)?;
    let mut gross = Venue::begin(GrossKeeper::fresh());
    play(&mut gross, events);
    println!(rt; "\nThe same calls over the gross keeper, which offsets nothing:")?;
    tell_standings(rt, &gross)
}

fn main(rt: HostRuntime) -> io::Result<()> {
    let mut venue = Venue::begin(Reckoner::fresh());
    let mut events = [BLANK_EVENT; LIST_PLACES];
    println!(rt; "{INTRODUCTION}")?;
    tell_day(&rt, &mut venue, &mut events)?;
    compare(&rt, &mut events)
}
