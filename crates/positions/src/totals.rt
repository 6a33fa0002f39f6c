ghost use Rattle.std.specs.Prelude.{◌≡◌, ◌+◌, ◌^◌, ◌<◌, cond};
ghost use Rattle.terms.specs.declared.Side.{Side};
ghost use Rattle.terms.specs.Sides.{same_side};
ghost use Rattle.positions.specs.Totals.{total_on};

use terms::Side;

/// One member's two totals in one instrument.
#[derive(Clone, Copy, Default)]
pub(crate) struct MemberLots {
    pub(crate) bought: u32,
    pub(crate) sold: u32,
}

impl MemberLots {
    pub(crate) fn on(self, side: Side) -> u32
        ensures { result ≡ total_on self side }
    {
        match side {
            Side::Bid => self.bought,
            Side::Offer => self.sold,
        }
    }

    // Each total on its own, as `InstrumentLots::position` reads them, for the reason that stands there.
    pub(crate) fn with_total(self, side: Side, total: u32) -> Self
        ensures { (s : Side) → total_on result s ≡ cond (same_side side s) total (total_on self s) }
    {
        match side {
            Side::Bid => MemberLots {
                bought: total,
                sold: self.sold,
            },
            Side::Offer => MemberLots {
                bought: self.bought,
                sold: total,
            },
        }
    }

    pub(crate) fn with_more(self, side: Side, lots: u32) -> Self
        requires { total_on self side + lots < 2 ^ 32 }
        ensures { (s : Side) → total_on result s ≡ total_on self s + cond (same_side side s) lots 0 }
    {
        match side {
            Side::Bid => MemberLots {
                bought: self.bought + lots,
                ..self
            },
            Side::Offer => MemberLots {
                sold: self.sold + lots,
                ..self
            },
        }
    }
}
