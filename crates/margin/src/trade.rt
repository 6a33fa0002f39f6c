ghost use Rattle.std.specs.Prelude.{◌≡◌, is_ok};
ghost use Rattle.margin.specs.Sheets.{can_record_trade, after_trade};

use crate::keeper::Keeper;
use crate::refusal::KeeperRefusal;
use terms::Side;

/// Records both sides of a trade, or neither.
pub fn record_trade<K: Keeper>(
    keeper: &mut K,
    buyer: u8,
    seller: u8,
    instrument: u8,
    lots: u32,
) -> Result<(), KeeperRefusal>
    ensures answer { is_ok result ≡ can_record_trade K.Keeper.REACH (K.Keeper.sheet keeper.old) buyer seller instrument lots }
    ensures after { K.Keeper.sheet keeper.new ≡ after_trade K.Keeper.REACH (K.Keeper.sheet keeper.old) buyer seller instrument lots }
{
    // The seller's side is only asked about before the buyer's is recorded, so that a refusal of either alters nothing.
    keeper.need_with(seller, instrument, Side::Offer, lots)?;
    keeper.record(buyer, instrument, Side::Bid, lots)?;
    keeper.record(seller, instrument, Side::Offer, lots)
}
