ghost use Rattle.std.specs.Prelude.{[], ◌∷◌};
ghost use Rattle.wire.specs.Fields.{Fit};
ghost use Rattle.wire.specs.Layout.{FieldValues, layout};

use crate::bit_field::BitField;
use std::marker::Model;

pub(crate) const CODE: BitField = BitField {
    place: 61,
    width: 3,
};

pub(crate) const MEMBER: BitField = BitField {
    place: 56,
    width: 5,
};

pub(crate) const INSTRUMENT: BitField = BitField {
    place: 52,
    width: 4,
};

pub(crate) const SIDE: BitField = BitField {
    place: 51,
    width: 1,
};

pub(crate) const TERM: BitField = BitField {
    place: 50,
    width: 1,
};

pub(crate) const LOTS: BitField = BitField {
    place: 34,
    width: 16,
};

pub(crate) const RATE: BitField = BitField {
    place: 14,
    width: 20,
};

pub(crate) const SPARE: BitField = BitField {
    place: 0,
    width: 14,
};

/// The values of a message's fields, from the most significant bits to the least, each within its width. They are
/// numbers, as on the wire: `code` may be one that no `Kind` has.
#[derive(Drop)]
pub(crate) struct Fields {
    pub(crate) code: u64,
    pub(crate) member: u64,
    pub(crate) instrument: u64,
    pub(crate) side: u64,
    pub(crate) term: u64,
    pub(crate) lots: u64,
    pub(crate) rate: u64,
    pub(crate) spare: u64,
}

impl Model for Fields {
    ghost Value = { FieldValues };

    ghost view = { λ f. record { code = f.code; member = f.member; instrument = f.instrument; side = f.side; term = f.term; lots = f.lots; rate = f.rate; spare = f.spare } };

    ghost invariant = { λ f. Fit layout (f.code ∷ f.member ∷ f.instrument ∷ f.side ∷ f.term ∷ f.lots ∷ f.rate ∷ f.spare ∷ []) };
}
