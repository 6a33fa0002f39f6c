ghost use Rattle.std.specs.Prelude.{◌≡◌, ◌+◌, ◌*◌, ◌^◌, ◌<◌, ◌≤◌, IfOk, if◌then◌else◌, Ok, Err, nat_lt};
ghost use Rattle.wire.specs.declared.request.MessageRefusal.TheVariants.{NotLegal};
ghost use Rattle.wire.specs.Fields.{field};

use crate::request::MessageRefusal;

/// A field of a word: so many bits (width) at such a place, which is the number of bits below them.
#[derive(Clone, Copy)]
pub(crate) struct BitField {
    pub(crate) place: u32,
    pub(crate) width: u32,
    ghost within: { ((place < 64) × (width < 64)) × (place + width ≤ 64) },
}

impl BitField {
    /// The field's value in a word.
    pub(crate) fn get(self, word: u64) -> u64
        ensures value { result ≡ field word self.place self.width }
        ensures below { result < 2 ^ self.width }
    {
        (word >> self.place) & ((1 << self.width) - 1)
    }

    /// The word with a value in the field, all other bits 0.
    pub(crate) fn set(self, value: u64) -> u64
        requires { value < 2 ^ self.width }
        ensures { result ≡ value * 2 ^ self.place }
    {
        value << self.place
    }

    /// The value, if it fits the field.
    pub(crate) fn checked(self, value: u64) -> Result<u64, MessageRefusal>
        ensures answer { result ≡ (if nat_lt value (2 ^ self.width) then Ok value else Err NotLegal) }
        ensures below { IfOk result (λ fitting. fitting < 2 ^ self.width) }
    {
        if value < 1 << self.width {
            Ok(value)
        } else {
            Err(MessageRefusal::NotLegal)
        }
    }
}
