ghost use Rattle.std.specs.Prelude.{◌≡◌, ◌*◌, ◌^◌, ◌<◌};
ghost use Rattle.margin.specs.Laws.{NeedsFit};
ghost use Rattle.margin.specs.Sheets.{need_of, use_of_deposit};

use crate::keeper::Keeper;

/// How much of a deposit a member's need takes up, in whole hundredths rounded down; none of a deposit of 0.
pub fn deposit_use<K: Keeper>(keeper: &K, member: u8, deposit: u64) -> Option<u64>
    ensures value { result ≡ use_of_deposit (need_of K.Keeper.charge (K.Keeper.sheet keeper.now) member) deposit }
    ensures needs_fit { NeedsFit K.Keeper.charge (K.Keeper.sheet keeper.now) }
{
    (100 * bounded_need(keeper, member)).checked_div(deposit)
}

// The need, with what the two laws say of its size.
fn bounded_need<K: Keeper>(keeper: &K, member: u8) -> u64
    ensures value { result ≡ need_of K.Keeper.charge (K.Keeper.sheet keeper.now) member }
    ensures fits { 100 * result < 2 ^ 64 }
    ensures needs_fit { NeedsFit K.Keeper.charge (K.Keeper.sheet keeper.now) }
{
    keeper.need(member)
}
