ghost use Rattle.std.specs.Prelude.{◌≡◌};
ghost use Rattle.margin.specs.Sheets.{fresh_sheet};
ghost use Rattle.positions.specs.Charges.{summed, standard_amount, gross_amount};
ghost use Rattle.positions.specs.Reads.{sheet_of};
ghost use Rattle.positions.proofs.Sheets.{sheet_lawful};
ghost use Rattle.positions.proofs.Sums.{summed_none, summed_rise};
ghost use Rattle.std.proofs.Common.{rules};

use crate::gross::GrossKeeper;
use crate::reckoner::Reckoner;
use margin::keeper::Keeper;
use margin::refusal::KeeperRefusal;
use positions::lots::LotsTable;
use positions::tariff::Tariff;
use terms::Side;

/// A keeper that adds a tariff's amounts up over the instruments when it is asked.
#[derive(Drop)]
pub struct SummingKeeper<T> {
    table: LotsTable<100_000>,
    tariff: T,
}

impl<T: Tariff + Default> SummingKeeper<T> {
    /// A keeper with no factor and no lots.
    ///
    /// Which charge `Reckoner` and `GrossKeeper` have is said here too, since both begin here and a name for a type has no contract of
    /// its own.
    pub fn fresh() -> Self
        ensures fresh { sheet_of result.table ≡ fresh_sheet }
        ensures reckoner { ⟦<Reckoner as Keeper>⟧.charge ≡ summed standard_amount }
        ensures gross_keeper { ⟦<GrossKeeper as Keeper>⟧.charge ≡ summed gross_amount }
    {
        SummingKeeper {
            table: LotsTable::fresh(),
            tariff: T::default(),
        }
    }
}

impl<T: Tariff> Keeper for SummingKeeper<T> {
    const REACH: u32 = 100_000;

    ghost REACH = { 100000 };

    ghost sheet = { λ keeper. sheet_of keeper.table };

    ghost charge = { summed T.charged };

    ghost reach_in_range = { Prim.search rules };

    ghost sheet_is_lawful = { λ keeper. sheet_lawful keeper.table };

    ghost no_lots_no_charge = { summed_none T.charged T.no_lots_no_amount };

    ghost rise_bounded = { summed_rise T.charged T.no_lots_no_amount T.amount_rise_bounded 100000 };

    fn set_factor(&mut self, instrument: u8, factor: u32) -> Result<(), KeeperRefusal> {
        self.table.set_factor(instrument, factor)
    }

    fn record(
        &mut self,
        member: u8,
        instrument: u8,
        side: Side,
        lots: u32,
    ) -> Result<(), KeeperRefusal> {
        self.table.record(member, instrument, side, lots)
    }

    fn held(&self, member: u8, instrument: u8, side: Side) -> u32 {
        self.table.held(member, instrument, side)
    }

    fn need(&self, member: u8) -> u64 {
        self.table.need(&self.tariff, member)
    }

    fn need_with(
        &self,
        member: u8,
        instrument: u8,
        side: Side,
        lots: u32,
    ) -> Result<u64, KeeperRefusal> {
        self.table
            .need_with(&self.tariff, member, instrument, side, lots)
    }
}
