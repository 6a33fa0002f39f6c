ghost use Rattle.std.specs.Prelude.{◌≡◌};
ghost use Rattle.wire.specs.Kinds.{code_of, Decodes};

use crate::request::MessageRefusal;

/// What a message asks for, as its code says.
#[derive(Clone, Copy, PartialEq, Eq, Debug)]
pub(crate) enum Kind {
    Place = 1,
    Cancel = 2,
    CancelAll = 3,
}

impl From<Kind> for u64 {
    ghost from_gives = { λ kind code. code ≡ code_of kind };

    fn from(kind: Kind) -> u64 {
        kind as u64
    }
}

impl TryFrom<u64> for Kind {
    type Error = MessageRefusal;

    ghost try_from_gives = { Decodes };

    fn try_from(code: u64) -> Result<Self, MessageRefusal> {
        match code {
            1 => Ok(Kind::Place),
            2 => Ok(Kind::Cancel),
            3 => Ok(Kind::CancelAll),
            _ => Err(MessageRefusal::NotLegal),
        }
    }
}
