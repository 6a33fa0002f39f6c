ghost use Rattle.std.specs.Prelude.{◌≡◌, length, IfOk, if◌then◌else◌, Ok, Err, nat_eq};
ghost use Rattle.wire.specs.declared.request.MessageRefusal.TheVariants.{NotEightBytes};
ghost use Rattle.wire.specs.Fields.{join, split};
ghost use Rattle.wire.specs.Messages.{eight_bytes, reading, writable, writing, written, message_of, refusal_number, legality};
ghost use Rattle.wire.specs.Trips.{RoundTrips, WorkedMessages};

use crate::layout::Fields;
use crate::request::{MessageRefusal, Request};

// The bytes of a message.
const LENGTH: usize = 8;

/// Reads a message.
pub fn read(message: &[u8]) -> Result<Request, MessageRefusal>
    ensures answer { result ≡ reading message.now }
    ensures round_trips { RoundTrips }
    ensures worked_messages { WorkedMessages }
{
    let bytes = eight_bytes_of(message)?;
    Fields::of_word(word_of(bytes)).request()
}

/// Writes a call as a message, into a place of eight bytes.
pub fn write(request: &Request, place: &mut [u8]) -> Result<(), MessageRefusal>
    ensures answer { result ≡ writing request.now place.old }
    ensures after { place.new ≡ written request.now place.old }
    ensures round_trips { RoundTrips }
{
    let message = message_for(request, place.len())?;
    place.copy_from_slice(&message);
    Ok(())
}

impl MessageRefusal {
    /// The number of the refusal.
    pub fn number(&self) -> u8
        ensures { result ≡ refusal_number self.now }
    {
        u8::from(*self)
    }
}

impl From<MessageRefusal> for u8 {
    ghost from_gives = { λ refusal number. number ≡ refusal_number refusal };

    fn from(refusal: MessageRefusal) -> u8 {
        match refusal {
            MessageRefusal::NotEightBytes => 1,
            MessageRefusal::NotLegal => 2,
        }
    }
}

/// 0 for a legal message, else the number of the reader's refusal. The crate `wire_c` offers it to hosts in C.
pub fn pungetsai_check_message(message: &[u8]) -> u8
    ensures { result ≡ legality (reading message.now) }
{
    match read(message) {
        Ok(_) => 0,
        Err(refusal) => refusal.number(),
    }
}

// The message, if it is eight bytes. Every way through `read` passes here, so the round trips and the worked messages are
// proved here once.
#[tactic(auto, using(crate::proofs::BothWays::round_trips, crate::proofs::BothWays::worked_messages))]
fn eight_bytes_of(message: &[u8]) -> Result<[u8; LENGTH], MessageRefusal>
    ensures answer { result ≡ (if nat_eq (length message.now) 8 then Ok message.now else Err NotEightBytes) }
    ensures round_trips { RoundTrips }
    ensures worked_messages { WorkedMessages }
{
    <[u8; LENGTH]>::try_from(message).map_err(|_| MessageRefusal::NotEightBytes)
}

// The eight bytes as one number, the most significant first.
fn word_of(bytes: [u8; LENGTH]) -> u64
    ensures { result ≡ join eight_bytes bytes }
{
    u64::from_be_bytes(bytes)
}

// The message of a legal call, for a place of this size.
#[tactic(auto, using(crate::proofs::BothWays::round_trips), unfolding(crate::specs::Messages::message_of))]
fn message_for(request: &Request, size: usize) -> Result<[u8; LENGTH], MessageRefusal>
    ensures answer { result ≡ writable request.now size (message_of request.now) }
    ensures sized { IfOk result (λ message. size ≡ length message) }
    ensures round_trips { RoundTrips }
{
    if size != LENGTH {
        return Err(MessageRefusal::NotEightBytes);
    }
    let fields = Fields::of_request(request)?;
    Ok(bytes_of(fields.word()))
}

fn bytes_of(word: u64) -> [u8; LENGTH]
    ensures { result ≡ split eight_bytes word }
{
    word.to_be_bytes()
}
