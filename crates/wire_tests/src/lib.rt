//! Examples of messages, and the edges of every refusal.

#![tactic(auto)]

#[cfg(test)]
mod tests {
    use std::process::Abort;
    use terms::{Side, Term};
    use wire::messages::{pungetsai_check_message, read, write};
    use wire::request::{MessageRefusal, Request};

    fn bid_at(rate: i32) -> Request {
        Request::Place {
            member: 0,
            instrument: 0,
            side: Side::Bid,
            term: Term::Day,
            rate,
            lots: 5,
        }
    }

    // Written and read back, and the bytes as they should be.
    fn goes_both_ways(rt: &impl Abort, request: &Request, bytes: [u8; 8]) {
        let mut place = [0xAA; 8];
        assert_eq!(rt; write(request, &mut place), Ok(()));
        assert_eq!(rt; place, bytes);
        assert_eq!(rt; read(&place), Ok(*request));
    }

    #[test]
    fn worked_messages_and_the_ends_of_the_rate(rt: HostRuntime) {
        let offer = Request::Place {
            member: 31,
            instrument: 15,
            side: Side::Offer,
            term: Term::Immediate,
            rate: -1,
            lots: 1,
        };
        let cancel = Request::Cancel {
            member: 2,
            number: 65_535,
        };
        let worked = [
            (
                bid_at(61_000),
                [0x20, 0x00, 0x00, 0x14, 0x3B, 0x92, 0x00, 0x00],
            ),
            (
                bid_at(-524_288),
                [0x20, 0x00, 0x00, 0x16, 0x00, 0x00, 0x00, 0x00],
            ),
            (
                bid_at(524_287),
                [0x20, 0x00, 0x00, 0x15, 0xFF, 0xFF, 0xC0, 0x00],
            ),
            (offer, [0x3F, 0xFC, 0x00, 0x07, 0xFF, 0xFF, 0xC0, 0x00]),
            (cancel, [0x42, 0x03, 0xFF, 0xFC, 0, 0, 0, 0]),
            (
                Request::CancelAll { member: 31 },
                [0x7F, 0, 0, 0, 0, 0, 0, 0],
            ),
        ];
        for (request, bytes) in worked {
            goes_both_ways(&rt, &request, bytes);
        }
    }

    #[test]
    fn values_that_do_not_fit_are_refused_and_nothing_is_written(rt: HostRuntime) {
        let mut place = [0xAA; 8];
        let cancel = Request::Cancel {
            member: 32,
            number: 1,
        };
        let far = Request::Place {
            member: 0,
            instrument: 16,
            side: Side::Bid,
            term: Term::Day,
            rate: 0,
            lots: 1,
        };
        let cancel_all = Request::CancelAll { member: 32 };
        for request in [bid_at(524_288), bid_at(-524_289), cancel_all, cancel, far] {
            assert_eq!(rt; write(&request, &mut place), Err(MessageRefusal::NotLegal));
        }
        let mut short = [0xAA; 7];
        assert_eq!(rt;
            write(&far, &mut short),
            Err(MessageRefusal::NotEightBytes),
            "the length is tested first"
        );
        assert_eq!(rt; short, [0xAA; 7]);
        assert_eq!(rt; place, [0xAA; 8]);
    }

    #[test]
    fn codes_and_lengths(rt: HostRuntime) {
        for code in 0u8..8 {
            let legal = (1..=3).contains(&code);
            let message = [code * 32, 0, 0, 0, 0, 0, 0, 0];
            assert_eq!(rt;
                pungetsai_check_message(&message),
                if legal { 0 } else { 2 }
            );
        }
        assert_eq!(rt; pungetsai_check_message(&[]), 1);
        assert_eq!(rt; pungetsai_check_message(&[0x60; 7]), 1);
        assert_eq!(rt; pungetsai_check_message(&[0x60; 9]), 1);
    }

    // Sets one bit after another in a message that is all 0 but for its code; those of `harmless` leave it legal.
    fn legal_with_each_bit_of(rt: &impl Abort, code: u64, harmless: u64) {
        for place in 0..64u32 {
            let message = (code << 61 | 1 << place).to_be_bytes();
            assert_eq!(rt; read(&message).is_ok(), harmless >> place & 1 == 1);
        }
    }

    #[test]
    fn each_single_bit_of_a_cancel_and_a_cancel_all(rt: HostRuntime) {
        // the member's 5 bits, the number's 16, the code's own bit, and the one that makes a cancel a cancel all
        legal_with_each_bit_of(&rt, 2, 0x7F03_FFFC_0000_0000);
        // the member's 5 bits and the code's own two
        legal_with_each_bit_of(&rt, 3, 0x7F00_0000_0000_0000);
    }
}
