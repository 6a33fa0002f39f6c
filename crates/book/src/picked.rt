ghost use Rattle.std.specs.Prelude.{◌≡◌};
ghost use Rattle.book.specs.Picks.{picks};

use terms::Order;

/// Which pending orders are meant.
#[derive(Clone, Copy, PartialEq, Eq, Debug)]
pub enum Picked {
    /// The order of this number, if it is this member's.
    One { member: u8, number: u16 },
    /// All of a member's.
    OfMember(u8),
    All,
}

impl Picked {
    /// Whether an order is meant.
    pub fn picks(&self, order: &Order) -> bool
        ensures { result ≡ picks self.now order.now }
    {
        match self {
            Picked::One { member, number } => *member == order.member && *number == order.number,
            Picked::OfMember(member) => *member == order.member,
            Picked::All => true,
        }
    }
}
