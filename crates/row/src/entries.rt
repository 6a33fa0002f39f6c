ghost use Rattle.std.specs.Prelude.{◌≡◌};
ghost use Rattle.terms.specs.declared.Side.TheVariants.{Bid as BidSide, Offer as OfferSide};
ghost use Rattle.row.specs.Rates.{Precedes as StandsBefore, Alike as SamePlace, precedes as stands_before};
ghost use Rattle.std.proofs.Common.{rules};

use crate::precedence::Precedence;
use terms::{Order, Side};

// Two types and not one with a const parameter, which an alias cannot construct as `Bid(..)` and `Offer(..)` do; each impl is a line.

/// A bid: the higher rate precedes, and at one rate the lower number.
#[derive(Clone, Copy, PartialEq, Eq, Debug)]
pub struct Bid(pub Order);

/// An offer: the lower rate precedes, and at one rate the lower number.
#[derive(Clone, Copy, PartialEq, Eq, Debug)]
pub struct Offer(pub Order);

impl Precedence for Bid {
    ghost Precedes = { λ a b. StandsBefore BidSide a.0 b.0 };

    ghost Alike = { λ a b. SamePlace a.0 b.0 };

    ghost test = { λ a b. stands_before BidSide a.0 b.0 };

    ghost test_says_precedes = { Prim.search rules };

    ghost precedes_passes_test = { Prim.search rules };

    ghost one_way = { Prim.search rules };

    ghost not_preceding_carries = { Prim.search rules };

    ghost total = { Prim.search rules };

    fn precedes(&self, other: &Self) -> bool {
        stands_before(Side::Bid, &self.0, &other.0)
    }
}

impl Precedence for Offer {
    ghost Precedes = { λ a b. StandsBefore OfferSide a.0 b.0 };

    ghost Alike = { λ a b. SamePlace a.0 b.0 };

    ghost test = { λ a b. stands_before OfferSide a.0 b.0 };

    ghost test_says_precedes = { Prim.search rules };

    ghost precedes_passes_test = { Prim.search rules };

    ghost one_way = { Prim.search rules };

    ghost not_preceding_carries = { Prim.search rules };

    ghost total = { Prim.search rules };

    fn precedes(&self, other: &Self) -> bool {
        stands_before(Side::Offer, &self.0, &other.0)
    }
}

/// Whether an order is met before another of its side: the better rate first, and at one rate who came first.
pub fn stands_before(side: Side, ours: &Order, theirs: &Order) -> bool
    ensures { result ≡ stands_before side ours.now theirs.now }
{
    if ours.rate == theirs.rate {
        return ours.number < theirs.number;
    }
    match side {
        Side::Bid => ours.rate > theirs.rate,
        Side::Offer => ours.rate < theirs.rate,
    }
}
