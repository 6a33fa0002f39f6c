//! Names and amounts as people read them.

use crate::script::{INSTRUMENTS, MEMBERS};
use margin::deposit::deposit_use;
use margin::keeper::Keeper;
use std::alloc::{AllocError, Global};
use terms::Side;

/// A whole number with a comma between thousands.
// As in the program `day`. In a crate for both it would need a contract: that of the text was tried, and the proof of groups
// with zeros before them did not close.
pub(crate) fn grouped(heap: Global, n: u64) -> Result<String, AllocError> {
    let (thousands, units) = (n / 1_000, n % 1_000);
    let (millions, thousand) = (thousands / 1_000, thousands % 1_000);
    if thousands == 0 {
        format!(in heap; "{units}")
    } else if millions == 0 {
        format!(in heap; "{thousand},{units:03}")
    } else {
        format!(in heap; "{millions},{thousand:03},{units:03}")
    }
}

/// The use of a deposit in per cent.
pub(crate) fn percentage<K: Keeper>(
    heap: Global,
    keeper: &K,
    member: u8,
) -> Result<String, AllocError> {
    match deposit_use(keeper, member, deposit(member)) {
        Some(hundredths) => format!(in heap; "{hundredths} %"),
        None => String::from_str(heap, "no deposit"),
    }
}

pub(crate) fn deposit(member: u8) -> u64 {
    MEMBERS.get(usize::from(member)).map_or(0, |m| m.deposit)
}

pub(crate) fn member_name(member: u8) -> &'static str {
    MEMBERS
        .get(usize::from(member))
        .map_or("nobody", |m| m.name)
}

pub(crate) fn instrument_name(instrument: u8) -> &'static str {
    INSTRUMENTS
        .get(usize::from(instrument))
        .map_or("not known", |i| i.name)
}

pub(crate) fn verb(side: Side) -> &'static str {
    match side {
        Side::Bid => "buy",
        Side::Offer => "sell",
    }
}
