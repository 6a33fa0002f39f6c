ghost use Rattle.std.specs.Prelude.{◌≡◌, ℕ};
ghost use Rattle.positions.specs.Charges.{Amount, standard_amount, gross_amount, AmountRiseBounded};
ghost use Rattle.positions.specs.Amounts.{standard_rise};
ghost use Rattle.std.proofs.Common.{rules};

use crate::lots::Position;
use crate::totals::MemberLots;

/// What one instrument adds to a member's charge, in half-rupees.
pub trait Tariff {
    ghost charged: { Amount };

    fn amount(&self, position: Position) -> u64
        ensures { result ≡ charged position.factor position.lots.bought position.lots.sold };

    ghost no_lots_no_amount: { (factor : ℕ) → charged factor 0 0 ≡ 0 };

    ghost amount_rise_bounded: { AmountRiseBounded charged };
}

/// The standard charge: factor × (2 × the larger total − the smaller).
#[derive(Clone, Copy, Default)]
pub struct Standard;

/// The gross charge, with no offset of lots bought against lots sold: 2 × factor × (bought + sold).
#[derive(Clone, Copy, Default)]
pub struct Gross;

impl Tariff for Standard {
    ghost charged = { standard_amount };

    ghost no_lots_no_amount = { Prim.search rules };

    ghost amount_rise_bounded = { standard_rise };

    fn amount(&self, position: Position) -> u64 {
        let MemberLots { bought, sold } = position.lots;
        let (larger, smaller) = (bought.max(sold), bought.min(sold));
        u64::from(position.factor) * (2 * u64::from(larger) - u64::from(smaller))
    }
}

impl Tariff for Gross {
    ghost charged = { gross_amount };

    ghost no_lots_no_amount = { Prim.search rules };

    ghost amount_rise_bounded = { Prim.search rules };

    fn amount(&self, position: Position) -> u64 {
        let MemberLots { bought, sold } = position.lots;
        2 * (u64::from(position.factor) * (u64::from(bought) + u64::from(sold)))
    }
}
