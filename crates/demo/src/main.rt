//! A small morning at three margin keepers, told step by step.

#![tactic(auto)]

mod desk;
mod script;
mod show;

use crate::desk::Desk;
use crate::script::{FACTOR_CALLS, INSTRUMENTS, MEMBERS, Question, STEPS, Step, Trade};
use crate::show::{grouped, instrument_name, member_name, percentage, verb};
use margin::keeper::Keeper;
use std::io;
use terms::Side;

const INTRODUCTION: &str = "A small morning at three margin keepers

A keeper holds a factor for each instrument and every member's lots bought and sold.
From these it answers the member's need: the margin that must stand behind its trades.
Factors are in rupees a lot; needs and deposits are in half-rupees.
The reckoner adds the need up when asked, the running keeper keeps it up to date,
and the gross keeper allows no offset. Needs during the morning are the reckoner's.";

fn tell_note(rt: &HostRuntime, note: &str) -> io::Result<()> {
    if note.is_empty() {
        return Ok(());
    }
    println!(rt; "         {note}")
}

fn set_factors(rt: &HostRuntime, desk: &mut Desk) -> io::Result<()> {
    println!(rt; "\n1. The operator sets the factors")?;
    for call in &FACTOR_CALLS {
        let answer = if desk.set_factor(call.instrument, call.factor).is_ok() {
            "set"
        } else {
            "REFUSED"
        };
        println!(rt;
            "  instrument {}  {:<38} factor {:>4}   {answer}",
            call.instrument,
            instrument_name(call.instrument),
            call.factor
        )?;
        tell_note(rt, call.note)?;
    }
    Ok(())
}

fn list_deposits(rt: &HostRuntime) -> io::Result<()> {
    println!(rt; "\n2. The members and their deposits")?;
    for (number, member) in MEMBERS.iter().enumerate() {
        let amount = grouped(rt.alloc(), member.deposit)?;
        println!(rt;
            "  member {number}  {:<20} {amount:>10} half-rupees",
            member.name
        )?;
    }
    Ok(())
}

fn tell_need(rt: &HostRuntime, desk: &Desk, member: u8) -> io::Result<()> {
    let need = grouped(rt.alloc(), desk.reckoner.need(member))?;
    let share = percentage(rt.alloc(), &desk.reckoner, member)?;
    println!(rt;
        "           {:<20} need {need:>8}   {share:>5} of its deposit",
        member_name(member)
    )
}

fn tell_trade(rt: &HostRuntime, desk: &mut Desk, trade: &Trade) -> io::Result<()> {
    let answer = if desk
        .trade(trade.buyer, trade.seller, trade.instrument, trade.lots)
        .is_ok()
    {
        "recorded"
    } else {
        "REFUSED"
    };
    let count = grouped(rt.alloc(), u64::from(trade.lots))?;
    println!(rt;
        "  {}  {} buys {count} lots of instrument {} from {}: {answer}",
        trade.time,
        member_name(trade.buyer),
        trade.instrument,
        member_name(trade.seller)
    )?;
    tell_note(rt, trade.note)?;
    tell_need(rt, desk, trade.buyer)?;
    tell_need(rt, desk, trade.seller)
}

fn tell_question(rt: &HostRuntime, desk: &Desk, question: &Question) -> io::Result<()> {
    let Question {
        time,
        member,
        side,
        instrument,
        lots,
        note,
    } = question;
    println!(rt;
        "  {time}  {} asks: what if I {} {lots} lots of instrument {instrument}?",
        member_name(*member),
        verb(*side)
    )?;
    match desk.reckoner.need_with(*member, *instrument, *side, *lots) {
        Ok(need) => {
            let need = grouped(rt.alloc(), need)?;
            println!(rt; "           its need would be {need}")?;
        }
        Err(_) => println!(rt; "           REFUSED")?,
    }
    tell_note(rt, note)?;
    tell_need(rt, desk, *member)
}

fn deal(rt: &HostRuntime, desk: &mut Desk) -> io::Result<()> {
    println!(rt; "\n3. The members deal")?;
    for step in &STEPS {
        println!(rt; "")?;
        match step {
            Step::Trade(trade) => tell_trade(rt, desk, trade)?,
            Step::Question(question) => tell_question(rt, desk, question)?,
        }
    }
    Ok(())
}

fn list_lots(rt: &HostRuntime, desk: &Desk, member: u8) -> io::Result<()> {
    println!(rt; "    {:<44} {:>8} {:>8}", "lots", "bought", "sold")?;
    for (number, instrument) in (0u8..).zip(INSTRUMENTS.iter()) {
        let bought = desk.reckoner.held(member, number, Side::Bid);
        let sold = desk.reckoner.held(member, number, Side::Offer);
        println!(rt;
            "    {number}  {:<41} {bought:>8} {sold:>8}",
            instrument.name
        )?;
    }
    Ok(())
}

fn tell_row(
    rt: &HostRuntime,
    label: &str,
    reckoner: &str,
    running: &str,
    gross: &str,
) -> io::Result<()> {
    println!(rt; "    {label:<20} {reckoner:>12} {running:>16} {gross:>14}")
}

// The rows differ in what they ask of a keeper; the keepers are of three types, over which no one closure could be.

fn compare_needs(rt: &HostRuntime, desk: &Desk, member: u8) -> io::Result<()> {
    let reckoner = grouped(rt.alloc(), desk.reckoner.need(member))?;
    let running = grouped(rt.alloc(), desk.running.need(member))?;
    let gross = grouped(rt.alloc(), desk.gross.need(member))?;
    tell_row(rt, "", "reckoner", "running keeper", "gross keeper")?;
    tell_row(
        rt,
        "need in half-rupees",
        reckoner.as_str(),
        running.as_str(),
        gross.as_str(),
    )
}

fn compare_use(rt: &HostRuntime, desk: &Desk, member: u8) -> io::Result<()> {
    let reckoner = percentage(rt.alloc(), &desk.reckoner, member)?;
    let running = percentage(rt.alloc(), &desk.running, member)?;
    let gross = percentage(rt.alloc(), &desk.gross, member)?;
    tell_row(
        rt,
        "use of the deposit",
        reckoner.as_str(),
        running.as_str(),
        gross.as_str(),
    )
}

fn close(rt: &HostRuntime, desk: &Desk) -> io::Result<()> {
    println!(rt; "\n4. Closing statements")?;
    for (number, member) in (0u8..).zip(MEMBERS.iter()) {
        let amount = grouped(rt.alloc(), member.deposit)?;
        println!(rt; "")?;
        println!(rt;
            "  member {number}  {}, deposit {amount} half-rupees",
            member.name
        )?;
        list_lots(rt, desk, number)?;
        compare_needs(rt, desk, number)?;
        compare_use(rt, desk, number)?;
    }
    Ok(())
}

fn main(rt: HostRuntime) -> io::Result<()> {
    let mut desk = Desk::fresh();
    println!(rt; "{INTRODUCTION}")?;
    set_factors(&rt, &mut desk)?;
    list_deposits(&rt)?;
    deal(&rt, &mut desk)?;
    close(&rt, &desk)
}
