ghost use Rattle.std.specs.Prelude.{◌≡◌};
ghost use Rattle.venue.specs.declared.submitting.Fault.TheVariants.{Reader, Venue as ByVenue};
ghost use Rattle.venue.specs.Reads.{market_of};
ghost use Rattle.venue.specs.Submits.{Submits, call_of, fault_number};

use crate::state::Venue;
use margin::keeper::Keeper;
use market::calls::{Answer, Call};
use market::events::Event;
use market::orders::NewOrder;
use market::refusals::Refusal;
use wire::messages::read;
use wire::request::{MessageRefusal, Request};

/// Why a message was refused, by the layer that refused it.
#[derive(Clone, Copy, PartialEq, Eq, Debug)]
pub enum Fault {
    /// The message was not read.
    Reader(MessageRefusal),
    /// The message was read, and the venue refused its call.
    Venue(Refusal),
}

impl From<MessageRefusal> for Fault {
    ghost from_gives = { λ refusal r. r ≡ Reader refusal };

    fn from(refusal: MessageRefusal) -> Fault {
        Fault::Reader(refusal)
    }
}

impl From<Refusal> for Fault {
    ghost from_gives = { λ refusal r. r ≡ ByVenue refusal };

    fn from(refusal: Refusal) -> Fault {
        Fault::Venue(refusal)
    }
}

// The reader's refusals are 1 and 2, the venue's 3 to 21.
impl From<Fault> for u8 {
    ghost from_gives = { λ fault n. n ≡ fault_number fault };

    fn from(fault: Fault) -> u8 {
        match fault {
            Fault::Reader(refusal) => refusal.number(),
            Fault::Venue(refusal) => refusal.number(),
        }
    }
}

// No conversion by From: the call is of crate market and the request of crate wire, and neither uses the other.
fn call_for(request: Request) -> Call
    ensures { result ≡ call_of request }
{
    match request {
        Request::Place {
            member,
            instrument,
            side,
            term,
            rate,
            lots,
        } => Call::Place(NewOrder {
            member,
            instrument,
            side,
            term,
            rate,
            lots,
        }),
        Request::Cancel { member, number } => Call::Cancel { member, number },
        Request::CancelAll { member } => Call::CancelAll { member },
    }
}

impl<K: Keeper> Venue<K> {
    /// Reads a message and makes its call.
    pub fn submit(&mut self, message: &[u8], events: &mut [Event]) -> Result<Answer, Fault>
        ensures { Submits K.Keeper.charge K.Keeper.REACH message.now (market_of K.Keeper.sheet self.old) (market_of K.Keeper.sheet self.new) result events.old events.new }
    {
        let request = read(message)?;
        let answer = self.make(call_for(request), events)?;
        Ok(answer)
    }
}
