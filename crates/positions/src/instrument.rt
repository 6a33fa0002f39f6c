ghost use Rattle.std.specs.Prelude.{◌≡◌, ◌<◌, ◌≤◌, ℕ, is_ok, IfOk, if◌then◌else◌};
ghost use Rattle.margin.specs.Sheets.{no_lots, raised};
ghost use Rattle.positions.specs.Reads.{lots_in, can_take_factor, can_grow, IsPosition};

use crate::lots::{HIGHEST_FACTOR, InstrumentLots, MEMBERS, Position};
use crate::places::MemberPlace;
use crate::totals::MemberLots;
use margin::refusal::KeeperRefusal;
use terms::Side;

impl<const REACH: u32> InstrumentLots<REACH> {
    pub(crate) fn blank() -> Self
        ensures factor { result.factor ≡ 0 }
        ensures lots { lots_in result ≡ no_lots }
    {
        InstrumentLots {
            factor: 0,
            members: [MemberLots::default(); MEMBERS],
        }
    }

    pub(crate) fn set_factor(&mut self, factor: u32) -> Result<(), KeeperRefusal>
        ensures answer { is_ok result ≡ can_take_factor self.old factor }
        ensures factor { self.new.factor ≡ (if can_take_factor self.old factor then factor else self.old.factor) }
        ensures lots { lots_in self.new ≡ lots_in self.old }
    {
        if self.factor != 0 || !(1..=HIGHEST_FACTOR).contains(&factor) {
            return Err(KeeperRefusal);
        }
        self.factor = factor;
        Ok(())
    }

    pub(crate) fn position(&self, member: MemberPlace) -> Position
        ensures { IsPosition self.now.factor (lots_in self.now) member.number result }
    {
        // One by one: copied whole, the two totals are moved as one number and taken apart again, which costs time.
        let MemberLots { bought, sold } = self.members[member.number];
        Position {
            factor: self.factor,
            lots: MemberLots { bought, sold },
        }
    }

    /// One of a member's totals; 0 for a member out of range.
    pub(crate) fn total(&self, member: u8, side: Side) -> u32
        ensures { result ≡ lots_in self.now side member }
    {
        match MemberPlace::try_from(member) {
            Ok(m) => self.members[m.number].on(side),
            Err(_) => 0,
        }
    }

    // The member's position with some lots more, or record's refusal.
    pub(crate) fn position_with(
        &self,
        member: MemberPlace,
        side: Side,
        lots: u32,
    ) -> Result<Position, KeeperRefusal>
        ensures answer { is_ok result ≡ can_grow REACH self.now member.number side lots }
        ensures value { IfOk result (IsPosition self.now.factor (raised (lots_in self.now) side member.number lots) member.number) }
    {
        let held = self.position(member).lots;
        if self.factor == 0 || lots == 0 || lots > REACH - held.on(side) {
            return Err(KeeperRefusal);
        }
        Ok(Position {
            factor: self.factor,
            lots: held.with_more(side, lots),
        })
    }

    pub(crate) fn record(
        &mut self,
        member: MemberPlace,
        side: Side,
        lots: u32,
    ) -> Result<(), KeeperRefusal>
        ensures answer { is_ok result ≡ can_grow REACH self.old member.number side lots }
        ensures factor { self.new.factor ≡ self.old.factor }
        ensures lots { lots_in self.new ≡ (if can_grow REACH self.old member.number side lots then raised (lots_in self.old) side member.number lots else lots_in self.old) }
    {
        let position = self.position_with(member, side, lots)?;
        self.put(member, side, position.lots.on(side));
        Ok(())
    }

    // Writes one of a member's totals, of an instrument that has a factor.
    fn put(&mut self, member: MemberPlace, side: Side, total: u32)
        requires within { total ≤ REACH }
        requires has_factor { 0 < self.old.factor }
        ensures factor { self.new.factor ≡ self.old.factor }
        ensures lots { (lots : ℕ) → total ≡ raised (lots_in self.old) side member.number lots side member.number → lots_in self.new ≡ raised (lots_in self.old) side member.number lots }
    {
        self.members[member.number] = self.members[member.number].with_total(side, total);
    }
}
