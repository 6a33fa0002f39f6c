ghost use Rattle.std.specs.Prelude.{◌≡◌, ◌^◌, ◌<◌, IfOk, if◌then◌else◌, Ok, Err, nat_lt};
ghost use Rattle.wire.specs.declared.request.MessageRefusal.TheVariants.{NotLegal};
ghost use Rattle.wire.specs.Fields.{join};
ghost use Rattle.wire.specs.Kinds.{code_of};
ghost use Rattle.wire.specs.Layout.{layout, values};
ghost use Rattle.wire.specs.Messages.{fields_in, cancel_fields, fields_of, legal, place_of, request_of, rate_bits, rate_of, rate_fits};

use crate::kind::Kind;
use crate::layout::{CODE, Fields, INSTRUMENT, LOTS, MEMBER, RATE, SIDE, SPARE, TERM};
use crate::one_bit::OneBit;
use crate::request::{MessageRefusal, Request};
use terms::{Side, Term};

impl Fields {
    pub(crate) fn of_word(word: u64) -> Self
        ensures { result ≡ fields_in word }
    {
        Fields {
            code: CODE.get(word),
            member: MEMBER.get(word),
            instrument: INSTRUMENT.get(word),
            side: SIDE.get(word),
            term: TERM.get(word),
            lots: LOTS.get(word),
            rate: RATE.get(word),
            spare: SPARE.get(word),
        }
    }

    pub(crate) fn word(&self) -> u64
        ensures { result ≡ join layout (values self.now) }
    {
        CODE.set(self.code)
            + MEMBER.set(self.member)
            + INSTRUMENT.set(self.instrument)
            + SIDE.set(self.side)
            + TERM.set(self.term)
            + LOTS.set(self.lots)
            + RATE.set(self.rate)
            + SPARE.set(self.spare)
    }

    // The call that the fields make, if the code is used and the fields that it does not use are 0.
    pub(crate) fn request(&self) -> Result<Request, MessageRefusal>
        ensures { result ≡ request_of self.now }
    {
        // A place is told by its code, and a kind made only after the test that both cancels share, so that no call has its kind
        // tested twice. The sum, which does not overflow, is 0 only if each of the fields that no cancel uses is 0.
        if self.code == u64::from(Kind::Place) && self.spare == 0 {
            return Ok(self.place());
        }
        if self.instrument + self.side + self.term + self.rate + self.spare != 0 {
            return Err(MessageRefusal::NotLegal);
        }
        match Kind::try_from(self.code)? {
            Kind::Cancel => Ok(Request::Cancel {
                member: self.member as u8,
                number: self.lots as u16,
            }),
            Kind::CancelAll if self.lots == 0 => Ok(Request::CancelAll {
                member: self.member as u8,
            }),
            _ => Err(MessageRefusal::NotLegal),
        }
    }

    // A cast by `as`, here and in `request`, is proved to lose nothing: each value is within its field's width. `try_from` would add a
    // refusal that cannot happen.
    fn place(&self) -> Request
        ensures { result ≡ place_of self.now }
    {
        Request::Place {
            member: self.member as u8,
            instrument: self.instrument as u8,
            side: Side::of_bit(self.side),
            term: Term::of_bit(self.term),
            rate: signed_rate(self.rate),
            lots: self.lots as u16,
        }
    }

    // The fields of a cancel or a cancel all.
    fn of_cancel(kind: Kind, member: u8, number: u16) -> Result<Self, MessageRefusal>
        ensures { result ≡ (if nat_lt member 32 then Ok (cancel_fields (code_of kind) member number) else Err NotLegal) }
    {
        Ok(Fields {
            code: u64::from(kind),
            member: MEMBER.checked(u64::from(member))?,
            instrument: 0,
            side: 0,
            term: 0,
            lots: u64::from(number),
            rate: 0,
            spare: 0,
        })
    }

    // The fields of a call, if every value fits its own.
    pub(crate) fn of_request(request: &Request) -> Result<Self, MessageRefusal>
        ensures { result ≡ (if legal request.now then Ok (fields_of request.now) else Err NotLegal) }
    {
        match *request {
            Request::Place {
                member,
                instrument,
                side,
                term,
                rate,
                lots,
            } => Ok(Fields {
                code: u64::from(Kind::Place),
                member: MEMBER.checked(u64::from(member))?,
                instrument: INSTRUMENT.checked(u64::from(instrument))?,
                side: side.bit(),
                term: term.bit(),
                lots: u64::from(lots),
                rate: rate_bits(rate)?,
                spare: 0,
            }),
            Request::Cancel { member, number } => Fields::of_cancel(Kind::Cancel, member, number),
            Request::CancelAll { member } => Fields::of_cancel(Kind::CancelAll, member, 0),
        }
    }
}

// How many rates a message can say. They are in two's complement, worked out here since no integer type has 20 bits: the
// least is half of that number below 0.
const RATES: i32 = 1 << RATE.width;

fn signed_rate(bits: u64) -> i32
    requires { bits < 2 ^ 20 }
    ensures { result ≡ rate_of bits }
{
    // By `as`, here and back: proved to lose nothing, as above.
    let rate = bits as i32;
    if rate < RATES / 2 { rate } else { rate - RATES }
}

fn rate_bits(rate: i32) -> Result<u64, MessageRefusal>
    ensures answer { result ≡ (if rate_fits rate then Ok (rate_bits rate) else Err NotLegal) }
    ensures below { IfOk result (λ bits. bits < 2 ^ 20) }
{
    if !(-RATES / 2..RATES / 2).contains(&rate) {
        return Err(MessageRefusal::NotLegal);
    }
    Ok(rate.rem_euclid(RATES) as u64)
}
