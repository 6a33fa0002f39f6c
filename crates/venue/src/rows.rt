ghost use Rattle.std.specs.Prelude.{◌≡◌, ◌<◌, true, not, ◌||◌, nat_le, None, Some, IfOk, IfErr, MatchOption};
ghost use Rattle.market.specs.declared.refusals.Refusal.TheVariants.{NoSuchMember, NoSuchInstrument};
ghost use Rattle.market.specs.TableRows.{admitted_row, defined_row};
ghost use Rattle.venue.specs.Reads.{row_at, member_at, instrument_at};

use crate::state::{Instruments, Members, Table};
use market::instruments::Instrument;
use market::members::{Member, Mode};
use market::refusals::Refusal;

impl<R, const N: usize> Table<R, N> {
    /// The row of this number, if there is one.
    fn row(&self, number: u8) -> Option<&R>
        ensures { MatchOption result (row_at N self.now.rows number ≡ None) (λ row. (number < N) × (row_at N self.now.rows number ≡ Some row.now)) }
    {
        self.rows.get(usize::from(number))?.as_ref()
    }
}

impl Members {
    /// The row of a member that is admitted.
    pub(crate) fn admitted(&self, member: u8) -> Result<&Member, Refusal>
        ensures found { IfOk result (λ row. (member < 32) × (admitted_row row.now ≡ member_at self.now.rows member)) }
        ensures refused { IfErr result (λ refusal. (refusal ≡ NoSuchMember) × ((nat_le 32 member || not (member_at self.now.rows member).admitted) ≡ true)) }
    {
        self.row(member).ok_or(Refusal::NoSuchMember)
    }

    /// A member's mode: reduction where nobody is admitted.
    pub(crate) fn mode(&self, member: u8) -> Mode
        ensures { result ≡ (member_at self.now.rows member).mode }
    {
        self.row(member).map_or(Mode::Reduction, |row| row.mode)
    }
}

impl Instruments {
    /// The row of an instrument that is defined.
    pub(crate) fn defined(&self, instrument: u8) -> Result<&Instrument, Refusal>
        ensures found { IfOk result (λ row. (instrument < 16) × (defined_row row.now ≡ instrument_at self.now.rows instrument)) }
        ensures refused { IfErr result (λ refusal. (refusal ≡ NoSuchInstrument) × ((nat_le 16 instrument || not (instrument_at self.now.rows instrument).defined) ≡ true)) }
    {
        self.row(instrument).ok_or(Refusal::NoSuchInstrument)
    }
}
