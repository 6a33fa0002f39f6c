ghost use Rattle.std.specs.Prelude.{◌≡◌, is_ok, IfOk};
ghost use Rattle.margin.specs.Sheets.{no_lots, fresh_sheet, can_set_factor, after_set_factor, can_record, recorded, after_record, need_of, need_with};
ghost use Rattle.positions.specs.Charges.{summed, amounts_with, Moves};
ghost use Rattle.positions.specs.Reads.{lots_in, sheet_of};

use crate::lots::{AmountChange, INSTRUMENTS, InstrumentLots, LotsTable};
use crate::places::{InstrumentPlace, MemberPlace};
use crate::tariff::Tariff;
use margin::refusal::KeeperRefusal;
use terms::Side;

// The calls. Each finds the places that its numbers name, and leaves the work to a function below that is given them. Their
// arguments are those of a keeper's calls, one by one as there.
impl<const REACH: u32> LotsTable<REACH> {
    /// No factor and no lots.
    pub fn fresh() -> Self
        ensures { sheet_of result ≡ fresh_sheet }
    {
        Self::filled_with(InstrumentLots::blank())
    }

    /// Gives an instrument its factor, once.
    pub fn set_factor(&mut self, instrument: u8, factor: u32) -> Result<(), KeeperRefusal>
        ensures answer { is_ok result ≡ can_set_factor (sheet_of self.old) instrument factor }
        ensures after { sheet_of self.new ≡ after_set_factor (sheet_of self.old) instrument factor }
    {
        let i = InstrumentPlace::try_from(instrument)?;
        self.set_factor_at(i, factor)
    }

    /// Adds lots to one of a member's totals.
    pub fn record(
        &mut self,
        member: u8,
        instrument: u8,
        side: Side,
        lots: u32,
    ) -> Result<(), KeeperRefusal>
        ensures answer { is_ok result ≡ can_record REACH (sheet_of self.old) member instrument side lots }
        ensures after { sheet_of self.new ≡ after_record REACH (sheet_of self.old) member instrument side lots }
    {
        let m = MemberPlace::try_from(member)?;
        let i = InstrumentPlace::try_from(instrument)?;
        self.record_at(m, i, side, lots)
    }

    /// One of a member's totals; 0 for a member or an instrument out of range.
    pub fn held(&self, member: u8, instrument: u8, side: Side) -> u32
        ensures { result ≡ (sheet_of self.now).held member side instrument }
    {
        match InstrumentPlace::try_from(instrument) {
            Ok(i) => self.held_at(member, i, side),
            Err(_) => 0,
        }
    }

    /// A member's need under a tariff: the sum of what the instruments add; 0 for a member out of range.
    pub fn need<T: Tariff>(&self, tariff: &T, member: u8) -> u64
        ensures { result ≡ need_of (summed T.Tariff.charged) (sheet_of self.now) member }
    {
        match MemberPlace::try_from(member) {
            Ok(m) => self.charge_at(tariff, m),
            Err(_) => 0,
        }
    }

    /// What one instrument adds to a member's need, now and with some lots more; refused where `record` is.
    pub fn amounts_with<T: Tariff>(
        &self,
        tariff: &T,
        member: u8,
        instrument: u8,
        side: Side,
        lots: u32,
    ) -> Result<AmountChange, KeeperRefusal>
        ensures answer { is_ok result ≡ can_record REACH (sheet_of self.now) member instrument side lots }
        ensures value { result ≡ amounts_with T.Tariff.charged REACH (sheet_of self.now) member instrument side lots }
        ensures moves { IfOk result (λ change. Moves (need_of (summed T.Tariff.charged) (sheet_of self.now) member) change (need_of (summed T.Tariff.charged) (recorded (sheet_of self.now) member instrument side lots) member)) }
    {
        let m = MemberPlace::try_from(member)?;
        let i = InstrumentPlace::try_from(instrument)?;
        self.amounts_at(tariff, m, i, side, lots)
    }

    /// The need as if some lots were recorded; refused where `record` is.
    pub fn need_with<T: Tariff>(
        &self,
        tariff: &T,
        member: u8,
        instrument: u8,
        side: Side,
        lots: u32,
    ) -> Result<u64, KeeperRefusal>
        ensures { result ≡ need_with (summed T.Tariff.charged) REACH (sheet_of self.now) member instrument side lots }
    {
        let AmountChange { before, after } = self.amounts_with(
            tariff, member, instrument, side, lots,
        )?;
        Ok(self.need(tariff, member) - before + after)
    }
}

impl<const REACH: u32> LotsTable<REACH> {
    fn filled_with(blank: InstrumentLots<REACH>) -> Self
        requires factor { blank.factor ≡ 0 }
        requires lots { lots_in blank ≡ no_lots }
        ensures { sheet_of result ≡ fresh_sheet }
    {
        LotsTable {
            instruments: [blank; INSTRUMENTS],
        }
    }

    fn set_factor_at(&mut self, i: InstrumentPlace, factor: u32) -> Result<(), KeeperRefusal>
        ensures answer { is_ok result ≡ can_set_factor (sheet_of self.old) i.number factor }
        ensures after { sheet_of self.new ≡ after_set_factor (sheet_of self.old) i.number factor }
    {
        self.instruments[i.number].set_factor(factor)
    }

    fn record_at(
        &mut self,
        m: MemberPlace,
        i: InstrumentPlace,
        side: Side,
        lots: u32,
    ) -> Result<(), KeeperRefusal>
        ensures answer { is_ok result ≡ can_record REACH (sheet_of self.old) m.number i.number side lots }
        ensures after { sheet_of self.new ≡ after_record REACH (sheet_of self.old) m.number i.number side lots }
    {
        self.instruments[i.number].record(m, side, lots)
    }

    fn held_at(&self, member: u8, i: InstrumentPlace, side: Side) -> u32
        ensures { result ≡ (sheet_of self.now).held member side i.number }
    {
        self.instruments[i.number].total(member, side)
    }

    fn charge_at<T: Tariff>(&self, tariff: &T, m: MemberPlace) -> u64
        ensures { result ≡ summed T.Tariff.charged (sheet_of self.now).factor ((sheet_of self.now).held m.number) }
    {
        // Not `iter().map(..).sum()`, as tried: in generic code its closure needs an `ensures` that is longer than this loop,
        // and with it the check finds neither that the sum fits nor what it is.
        let mut sum = 0;
        for instrument in &self.instruments {
            sum += tariff.amount(instrument.position(m));
        }
        sum
    }

    fn amounts_at<T: Tariff>(
        &self,
        tariff: &T,
        m: MemberPlace,
        i: InstrumentPlace,
        side: Side,
        lots: u32,
    ) -> Result<AmountChange, KeeperRefusal>
        ensures answer { is_ok result ≡ can_record REACH (sheet_of self.now) m.number i.number side lots }
        ensures value { result ≡ amounts_with T.Tariff.charged REACH (sheet_of self.now) m.number i.number side lots }
        ensures moves { IfOk result (λ change. Moves (need_of (summed T.Tariff.charged) (sheet_of self.now) m.number) change (need_of (summed T.Tariff.charged) (recorded (sheet_of self.now) m.number i.number side lots) m.number)) }
    {
        let grown = self.instruments[i.number].position_with(m, side, lots)?;
        let before = tariff.amount(self.instruments[i.number].position(m));
        let after = tariff.amount(grown);
        Ok(AmountChange { before, after })
    }
}
