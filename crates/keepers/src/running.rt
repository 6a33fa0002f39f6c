ghost use Rattle.std.specs.Prelude.{◌≡◌, ℕ, is_ok, Ok, slice_index};
ghost use Rattle.margin.specs.Sheets.{fresh_sheet, can_set_factor, after_set_factor, can_record, after_record, need_of, need_with};
ghost use Rattle.positions.specs.Charges.{summed, standard_amount};
ghost use Rattle.positions.specs.Reads.{sheet_of};
ghost use Rattle.positions.proofs.Sheets.{sheet_lawful};
ghost use Rattle.positions.specs.Amounts.{standard_none, standard_rise};
ghost use Rattle.positions.proofs.Sums.{summed_none, summed_rise};
ghost use Rattle.std.proofs.Common.{rules};

use margin::keeper::Keeper;
use margin::refusal::KeeperRefusal;
use positions::lots::{AmountChange, LotsTable, MEMBERS};
use positions::tariff::Standard;
use terms::Side;

/// The running keeper: the standard charge, each member's kept beside the lots and brought up to date at each record.
///
/// The needs stand beside the table, one number for each member, tied to it by `up_to_date`.
///
/// It has a table and no `SummingKeeper`: `need_with` asks for amounts, which no keeper answers, and what passes calls on is
/// a line a call either way.
#[derive(Drop)]
pub struct RunningKeeper {
    table: LotsTable<100_000>,
    needs: [u64; MEMBERS],
    ghost up_to_date: { (m : ℕ) → slice_index needs m ≡ need_of (summed standard_amount) (sheet_of table) m },
}

impl RunningKeeper {
    /// A keeper with no factor and no lots.
    pub fn fresh() -> Self
        ensures { sheet_of result.table ≡ fresh_sheet }
    {
        Self::over(LotsTable::fresh())
    }

    fn over(table: LotsTable<100_000>) -> Self
        requires { sheet_of table ≡ fresh_sheet }
        ensures { sheet_of result.table ≡ sheet_of table }
    {
        RunningKeeper {
            table,
            needs: [0; MEMBERS],
        }
    }

    // A new factor meets no lots, so every need that is kept stays right.
    fn set_unused_factor(&mut self, instrument: u8, factor: u32) -> Result<(), KeeperRefusal>
        ensures answer { is_ok result ≡ can_set_factor (sheet_of self.old.table) instrument factor }
        ensures after { sheet_of self.new.table ≡ after_set_factor (sheet_of self.old.table) instrument factor }
    {
        self.table.set_factor(instrument, factor)
    }

    // Records lots, the member's need after them being known.
    fn record_with_need(
        &mut self,
        member: u8,
        instrument: u8,
        side: Side,
        lots: u32,
        need: u64,
    ) -> Result<(), KeeperRefusal>
        requires { Ok need ≡ need_with (summed standard_amount) 100000 (sheet_of self.old.table) member instrument side lots }
        ensures answer { is_ok result ≡ can_record 100000 (sheet_of self.old.table) member instrument side lots }
        ensures after { sheet_of self.new.table ≡ after_record 100000 (sheet_of self.old.table) member instrument side lots }
    {
        self.table.record(member, instrument, side, lots)?;
        // By `as`: with `usize::from`, as tried, the index is what a call gives, and the proof that the needs are up to date stays open.
        self.needs[member as usize] = need;
        Ok(())
    }
}

impl Keeper for RunningKeeper {
    const REACH: u32 = 100_000;

    ghost REACH = { 100000 };

    ghost sheet = { λ keeper. sheet_of keeper.table };

    ghost charge = { summed standard_amount };

    ghost reach_in_range = { Prim.search rules };

    ghost sheet_is_lawful = { λ keeper. sheet_lawful keeper.table };

    ghost no_lots_no_charge = { summed_none standard_amount standard_none };

    ghost rise_bounded = { summed_rise standard_amount standard_none standard_rise 100000 };

    fn set_factor(&mut self, instrument: u8, factor: u32) -> Result<(), KeeperRefusal> {
        self.set_unused_factor(instrument, factor)
    }

    fn record(
        &mut self,
        member: u8,
        instrument: u8,
        side: Side,
        lots: u32,
    ) -> Result<(), KeeperRefusal> {
        let need = self.need_with(member, instrument, side, lots)?;
        self.record_with_need(member, instrument, side, lots, need)
    }

    fn held(&self, member: u8, instrument: u8, side: Side) -> u32 {
        self.table.held(member, instrument, side)
    }

    fn need(&self, member: u8) -> u64 {
        self.needs.get(usize::from(member)).copied().unwrap_or(0)
    }

    fn need_with(
        &self,
        member: u8,
        instrument: u8,
        side: Side,
        lots: u32,
    ) -> Result<u64, KeeperRefusal> {
        let AmountChange { before, after } = self
            .table
            .amounts_with(&Standard, member, instrument, side, lots)?;
        Ok(self.need(member) - before + after)
    }
}
