ghost use Rattle.std.specs.Prelude.{◌≡◌};
ghost use Rattle.book.specs.Entries.{Precedes as StandsBefore, Alike as SamePlace, precedes as entry_precedes, HasLowerNumber};
ghost use Rattle.market.specs.Cancels.{has_lower_number};
ghost use Rattle.std.proofs.Common.{rules};

use row::entries::stands_before;
use row::precedence::Precedence;
use terms::{Order, Side};

/// A pending order with the instrument and the side that it stands on.
#[derive(Clone, Copy, Default, PartialEq, Eq, Debug)]
pub struct Entry {
    pub instrument: u8,
    pub side: Side,
    pub order: Order,
}

// By instrument, bids before offers, and on one side of one instrument as bids and offers do.
impl Precedence for Entry {
    ghost Precedes = { StandsBefore };

    ghost Alike = { SamePlace };

    ghost test = { entry_precedes };

    ghost test_says_precedes = { Prim.search rules };

    ghost precedes_passes_test = { Prim.search rules };

    ghost one_way = { Prim.search rules };

    ghost not_preceding_carries = { Prim.search rules };

    ghost total = { Prim.search rules };

    fn precedes(&self, other: &Self) -> bool {
        if self.instrument != other.instrument {
            return self.instrument < other.instrument;
        }
        if self.side != other.side {
            return self.side == Side::Bid;
        }
        stands_before(self.side, &self.order, &other.order)
    }
}

/// An order among those that leave the book together: they leave lowest number first.
#[derive(Clone, Copy, Default, PartialEq, Eq, Debug)]
pub struct Leaving(pub Order);

impl Precedence for Leaving {
    ghost Precedes = { λ a b. HasLowerNumber a.0 b.0 };

    ghost Alike = { λ a b. a.0.number ≡ b.0.number };

    ghost test = { λ a b. has_lower_number a.0 b.0 };

    ghost test_says_precedes = { Prim.search rules };

    ghost precedes_passes_test = { Prim.search rules };

    ghost one_way = { Prim.search rules };

    ghost not_preceding_carries = { Prim.search rules };

    ghost total = { Prim.search rules };

    fn precedes(&self, other: &Self) -> bool {
        self.0.number < other.0.number
    }
}
