ghost use Rattle.std.specs.Prelude.{◌≡◌, ℕ, is_ok};
ghost use Rattle.margin.specs.Laws.{Lawful, ReachInRange, NoLotsNoCharge, RiseBounded};
ghost use Rattle.margin.specs.Sheets.{Sheet, Charge, can_set_factor, after_set_factor, can_record, after_record, need_of, need_with};

use crate::refusal::KeeperRefusal;
use terms::Side;

/// A margin keeper: it holds each instrument's factor and each member's lots bought and sold,
/// and answers the need, which is the margin charged on them, in half-rupees.
///
/// A factor is 1 to 100,000 rupees a lot. Members are 0 to 31, instruments 0 to 15.
///
/// Calls take member, instrument, side and lots one by one: a keeper looks each of them up on its own, and a struct of the four
/// would be taken apart in each.
pub trait Keeper {
    /// The keeper's reach: the most lots that one total may come to, 1 to 100,000.
    const REACH: u32;

    /// The same constant, for clauses.
    ghost REACH: { ℕ };

    /// The factors and totals that the keeper holds.
    ghost sheet: { Self → Sheet };

    /// The charge on factors and one member's totals.
    ghost charge: { Charge };

    /// `REACH`, by a call.
    fn highest_total() -> u32
        ensures { result ≡ REACH }
    {
        Self::REACH
    }

    /// Gives an instrument its factor, once.
    fn set_factor(&mut self, instrument: u8, factor: u32) -> Result<(), KeeperRefusal>
        ensures answer { is_ok result ≡ can_set_factor (sheet self.old) instrument factor }
        ensures after { sheet self.new ≡ after_set_factor (sheet self.old) instrument factor };

    /// Adds lots to one of a member's totals.
    fn record(
        &mut self,
        member: u8,
        instrument: u8,
        side: Side,
        lots: u32,
    ) -> Result<(), KeeperRefusal>
        ensures answer { is_ok result ≡ can_record REACH (sheet self.old) member instrument side lots }
        ensures after { sheet self.new ≡ after_record REACH (sheet self.old) member instrument side lots };

    /// One of a member's totals; 0 for a member or an instrument out of range.
    fn held(&self, member: u8, instrument: u8, side: Side) -> u32
        ensures { result ≡ (sheet self.now).held member side instrument };

    /// The charge on a member's totals; 0 for a member out of range.
    fn need(&self, member: u8) -> u64
        ensures { result ≡ need_of charge (sheet self.now) member };

    /// What `need` would answer after `record` with the same arguments; it records nothing.
    fn need_with(
        &self,
        member: u8,
        instrument: u8,
        side: Side,
        lots: u32,
    ) -> Result<u64, KeeperRefusal>
        ensures { result ≡ need_with charge REACH (sheet self.now) member instrument side lots };

    ghost reach_in_range: { ReachInRange REACH };

    ghost sheet_is_lawful: { (keeper : Self) → Lawful REACH (sheet keeper) };

    ghost no_lots_no_charge: { NoLotsNoCharge charge };

    ghost rise_bounded: { RiseBounded charge REACH };
}
