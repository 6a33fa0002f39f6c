ghost use Rattle.std.specs.Prelude.{◌≡◌, ℕ, ◌<◌};
ghost use Rattle.wire.specs.Messages.{side_bit, side_of, term_bit, term_of};
ghost use Rattle.wire.specs.OneBits.{IsOneBit, side_one_bit, term_one_bit};

use terms::{Side, Term};

/// A choice of two, which a message has as one bit. Each impl names the cases of its own type, in a line each way.
pub(crate) trait OneBit {
    ghost bit_of: { Self → ℕ };

    ghost of_bit: { ℕ → Self };

    fn bit(self) -> u64
        ensures value { result ≡ bit_of self }
        ensures below { result < 2 };

    fn of_bit(bit: u64) -> Self
        requires { bit < 2 }
        ensures { result ≡ of_bit bit };

    ghost laws: { IsOneBit bit_of of_bit };
}

impl OneBit for Side {
    ghost bit_of = { side_bit };

    ghost of_bit = { side_of };

    ghost laws = { side_one_bit };

    fn bit(self) -> u64 {
        match self {
            Side::Bid => 0,
            Side::Offer => 1,
        }
    }

    fn of_bit(bit: u64) -> Self {
        if bit == 0 { Side::Bid } else { Side::Offer }
    }
}

impl OneBit for Term {
    ghost bit_of = { term_bit };

    ghost of_bit = { term_of };

    ghost laws = { term_one_bit };

    fn bit(self) -> u64 {
        match self {
            Term::Day => 0,
            Term::Immediate => 1,
        }
    }

    fn of_bit(bit: u64) -> Self {
        if bit == 0 { Term::Day } else { Term::Immediate }
    }
}
