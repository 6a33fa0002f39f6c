ghost use Rattle.std.specs.Prelude.{◌≡◌, ℕ, ◌≤◌};
ghost use Rattle.terms.specs.declared.Side.{Side};
ghost use Rattle.positions.specs.Totals.{totals_of};

use crate::totals::MemberLots;

/// Members are 0 to 31.
pub const MEMBERS: usize = 32;

/// Instruments are 0 to 15.
pub(crate) const INSTRUMENTS: usize = 16;

/// In rupees a lot.
pub(crate) const HIGHEST_FACTOR: u32 = 100_000;

/// One member's lots in one instrument, with the instrument's factor.
#[derive(Clone, Copy)]
pub struct Position {
    pub(crate) factor: u32,
    pub(crate) lots: MemberLots,
    ghost factor_in_range: { factor ≤ 100000 },
}

/// What one instrument adds to a member's need, before and after lots are recorded.
#[derive(Clone, Copy)]
pub struct AmountChange {
    pub before: u64,
    pub after: u64,
}

/// One instrument: its factor, and each member's lots. There are none where there is no factor.
///
/// A factor of 0 and not an `Option`: on no lots every tariff charges 0, so that it needs no case of its own.
#[derive(Clone, Copy)]
pub struct InstrumentLots<const REACH: u32> {
    pub(crate) factor: u32,
    pub(crate) members: [MemberLots; MEMBERS],
    ghost factor_in_range: { factor ≤ 100000 },
    ghost in_reach: { (side : Side) (m : ℕ) → totals_of members side m ≤ REACH },
    ghost only_with_factor: { (side : Side) (m : ℕ) → factor ≡ 0 → totals_of members side m ≡ 0 },
}

/// Factors and lots, as the shipped keepers hold them. `REACH` is the most lots that one total may come to.
#[derive(Drop)]
pub struct LotsTable<const REACH: u32> {
    pub(crate) instruments: [InstrumentLots<REACH>; INSTRUMENTS],
}
