ghost use Rattle.std.specs.Prelude.{◌<◌};

use crate::lots::{INSTRUMENTS, MEMBERS};
use margin::refusal::KeeperRefusal;

/// A place in a table of `COUNT` places, by its number.
#[derive(Clone, Copy)]
pub(crate) struct Place<const COUNT: usize> {
    pub(crate) number: usize,
    ghost in_table: { number < COUNT },
}

pub(crate) type MemberPlace = Place<MEMBERS>;

pub(crate) type InstrumentPlace = Place<INSTRUMENTS>;

impl<const COUNT: usize> TryFrom<u8> for Place<COUNT> {
    ghost use Rattle.positions.specs.Places.{IsPlaceOf};

    type Error = KeeperRefusal;

    ghost try_from_gives = { IsPlaceOf COUNT };

    fn try_from(number: u8) -> Result<Self, KeeperRefusal> {
        let number = usize::from(number);
        if number < COUNT {
            Ok(Place { number })
        } else {
            Err(KeeperRefusal)
        }
    }
}
