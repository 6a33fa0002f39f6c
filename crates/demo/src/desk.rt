//! The three keepers, called together so that they can be compared.

use keepers::gross::GrossKeeper;
use keepers::reckoner::Reckoner;
use keepers::running::RunningKeeper;
use margin::keeper::Keeper;
use margin::refusal::KeeperRefusal;
use margin::trade::record_trade;

#[derive(Drop)]
pub struct Desk {
    pub reckoner: Reckoner,
    pub running: RunningKeeper,
    pub gross: GrossKeeper,
}

impl Desk {
    pub(crate) fn fresh() -> Self {
        Desk {
            reckoner: Reckoner::fresh(),
            running: RunningKeeper::fresh(),
            gross: GrossKeeper::fresh(),
        }
    }

    // The three hold the same factors and lots, so that all accept or the first refuses.
    pub(crate) fn set_factor(&mut self, instrument: u8, factor: u32) -> Result<(), KeeperRefusal> {
        self.reckoner.set_factor(instrument, factor)?;
        self.running.set_factor(instrument, factor)?;
        self.gross.set_factor(instrument, factor)
    }

    pub(crate) fn trade(
        &mut self,
        buyer: u8,
        seller: u8,
        instrument: u8,
        lots: u32,
    ) -> Result<(), KeeperRefusal> {
        record_trade(&mut self.reckoner, buyer, seller, instrument, lots)?;
        record_trade(&mut self.running, buyer, seller, instrument, lots)?;
        record_trade(&mut self.gross, buyer, seller, instrument, lots)
    }
}
