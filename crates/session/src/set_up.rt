use keepers::reckoner::Reckoner;
use market::members::Limits;
use market::refusals::Refusal;
use venue::state::Venue;

/// Deposits of the members 0, 1 and 2, in half-rupees.
const DEPOSITS: [u64; 3] = [10_000, 10_000, 2_000];

/// One instrument, on MIBOR, of over one and up to five years, with factor 100; three members for MIBOR, each limit 10.
pub(crate) fn set_up(venue: &mut Venue<Reckoner>) -> Result<(), Refusal> {
    venue.define(0, 0, 1, 100)?;
    for (member, deposit) in (0u8..).zip(DEPOSITS.iter()) {
        admit(venue, member, *deposit)?;
    }
    venue.open()
}

fn admit(venue: &mut Venue<Reckoner>, member: u8, deposit: u64) -> Result<(), Refusal> {
    venue.admit(
        member,
        1,
        Limits {
            up_to_one_year: 10,
            up_to_five_years: 10,
            over_five_years: 10,
        },
    )?;
    venue.deposit(member, deposit)
}
