//! The day that the demonstration plays: who takes part, in what, and what is called.

use market::calls::Call;
use market::members::Limits;
use market::orders::NewOrder;
use terms::{Side, Term};

/// A call at a time of the day, with a note on what it shows.
pub struct Step {
    pub time: &'static str,
    pub call: Call,
    pub note: &'static str,
}

/// The members' names, by number.
pub static MEMBERS: [&'static str; 4] = [
    "Asha Bank",
    "Bharat Securities",
    "Chandra Bank",
    "Deccan Dealers",
];

/// The instruments' names, by number.
pub static INSTRUMENTS: [&'static str; 3] = [
    "MIBOR 1 to 5 years",
    "MIBOR over 5 years",
    "MMFOR up to 1 year",
];

pub static STEPS: [Step; 39] = [
    Step {
        time: "08:30",
        call: Call::Define {
            instrument: 0,
            benchmark: 0,
            group: 1,
            factor: 100,
        },
        note: "",
    },
    Step {
        time: "08:30",
        call: Call::Define {
            instrument: 1,
            benchmark: 0,
            group: 2,
            factor: 250,
        },
        note: "",
    },
    Step {
        time: "08:30",
        call: Call::Define {
            instrument: 2,
            benchmark: 1,
            group: 0,
            factor: 40,
        },
        note: "",
    },
    Step {
        time: "08:31",
        call: Call::Define {
            instrument: 2,
            benchmark: 1,
            group: 0,
            factor: 45,
        },
        note: "an instrument is defined once",
    },
    Step {
        time: "08:32",
        call: Call::Admit {
            member: 0,
            benchmarks: 3,
            limits: Limits {
                up_to_one_year: 10,
                up_to_five_years: 20,
                over_five_years: 10,
            },
        },
        note: "",
    },
    Step {
        time: "08:32",
        call: Call::Admit {
            member: 1,
            benchmarks: 1,
            limits: Limits {
                up_to_one_year: 10,
                up_to_five_years: 20,
                over_five_years: 10,
            },
        },
        note: "",
    },
    Step {
        time: "08:32",
        call: Call::Admit {
            member: 2,
            benchmarks: 3,
            limits: Limits {
                up_to_one_year: 10,
                up_to_five_years: 20,
                over_five_years: 10,
            },
        },
        note: "",
    },
    Step {
        time: "08:32",
        call: Call::Admit {
            member: 3,
            benchmarks: 3,
            limits: Limits {
                up_to_one_year: 10,
                up_to_five_years: 20,
                over_five_years: 10,
            },
        },
        note: "",
    },
    Step {
        time: "08:40",
        call: Call::Deposit {
            member: 0,
            amount: 20_000,
        },
        note: "a deposit turns a member from reduction to normal mode",
    },
    Step {
        time: "08:40",
        call: Call::Deposit {
            member: 1,
            amount: 10_000,
        },
        note: "",
    },
    Step {
        time: "08:40",
        call: Call::Deposit {
            member: 2,
            amount: 2_000,
        },
        note: "",
    },
    Step {
        time: "08:40",
        call: Call::Deposit {
            member: 3,
            amount: 10_000,
        },
        note: "",
    },
    Step {
        time: "08:50",
        call: Call::Place(NewOrder {
            member: 0,
            instrument: 0,
            side: Side::Bid,
            term: Term::Day,
            rate: 61_000,
            lots: 5,
        }),
        note: "orders have to wait until the venue is open",
    },
    Step {
        time: "09:00",
        call: Call::Open,
        note: "",
    },
    Step {
        time: "09:05",
        call: Call::Place(NewOrder {
            member: 0,
            instrument: 0,
            side: Side::Bid,
            term: Term::Day,
            rate: 61_000,
            lots: 5,
        }),
        note: "no offer is pending, so the bid waits",
    },
    Step {
        time: "09:06",
        call: Call::Place(NewOrder {
            member: 1,
            instrument: 0,
            side: Side::Bid,
            term: Term::Day,
            rate: 61_000,
            lots: 5,
        }),
        note: "behind the earlier bid of the same rate",
    },
    Step {
        time: "09:07",
        call: Call::Place(NewOrder {
            member: 3,
            instrument: 0,
            side: Side::Bid,
            term: Term::Day,
            rate: 60_900,
            lots: 4,
        }),
        note: "a lower bid stands behind both",
    },
    Step {
        time: "09:08",
        call: Call::Place(NewOrder {
            member: 1,
            instrument: 2,
            side: Side::Bid,
            term: Term::Day,
            rate: 58_000,
            lots: 3,
        }),
        note: "Bharat Securities is admitted for MIBOR only",
    },
    Step {
        time: "09:09",
        call: Call::Place(NewOrder {
            member: 0,
            instrument: 1,
            side: Side::Bid,
            term: Term::Day,
            rate: 65_000,
            lots: 11,
        }),
        note: "the single order limit for over five years is 10",
    },
    Step {
        time: "09:10",
        call: Call::Place(NewOrder {
            member: 2,
            instrument: 2,
            side: Side::Bid,
            term: Term::Day,
            rate: 58_000,
            lots: 3,
        }),
        note: "Chandra Bank also waits in two other tenors",
    },
    Step {
        time: "09:11",
        call: Call::Place(NewOrder {
            member: 2,
            instrument: 1,
            side: Side::Offer,
            term: Term::Day,
            rate: 66_000,
            lots: 2,
        }),
        note: "",
    },
    Step {
        time: "09:15",
        call: Call::AskQuotes { instrument: 0 },
        note: "",
    },
    Step {
        time: "09:20",
        call: Call::Place(NewOrder {
            member: 2,
            instrument: 0,
            side: Side::Offer,
            term: Term::Day,
            rate: 60_900,
            lots: 14,
        }),
        note: "it meets two members' bids at their rate.\n         The second trade takes its need to its whole deposit: risk reduction.\n         Its orders in the other tenors are cancelled, then its rest,\n         and the third bid is left alone",
    },
    Step {
        time: "09:25",
        call: Call::Place(NewOrder {
            member: 2,
            instrument: 0,
            side: Side::Bid,
            term: Term::Day,
            rate: 60_000,
            lots: 1,
        }),
        note: "in reduction mode no order may wait",
    },
    Step {
        time: "09:26",
        call: Call::Place(NewOrder {
            member: 2,
            instrument: 0,
            side: Side::Offer,
            term: Term::Immediate,
            rate: 60_900,
            lots: 1,
        }),
        note: "it would raise the need",
    },
    Step {
        time: "09:27",
        call: Call::Withdraw {
            member: 2,
            amount: 100,
        },
        note: "the deposit is needed",
    },
    Step {
        time: "09:30",
        call: Call::Place(NewOrder {
            member: 0,
            instrument: 0,
            side: Side::Offer,
            term: Term::Day,
            rate: 61_200,
            lots: 1,
        }),
        note: "",
    },
    Step {
        time: "09:31",
        call: Call::Place(NewOrder {
            member: 2,
            instrument: 0,
            side: Side::Bid,
            term: Term::Immediate,
            rate: 61_200,
            lots: 6,
        }),
        note: "buying back lowers the need, but 1,900 of 2,000 is still 95 hundredths",
    },
    Step {
        time: "09:40",
        call: Call::Deposit {
            member: 2,
            amount: 1_000,
        },
        note: "more deposit brings it back to normal mode",
    },
    Step {
        time: "09:41",
        call: Call::Place(NewOrder {
            member: 2,
            instrument: 0,
            side: Side::Bid,
            term: Term::Day,
            rate: 61_050,
            lots: 2,
        }),
        note: "it may wait again, now as the best bid",
    },
    Step {
        time: "09:45",
        call: Call::Place(NewOrder {
            member: 3,
            instrument: 0,
            side: Side::Offer,
            term: Term::Day,
            rate: 60_900,
            lots: 3,
        }),
        note: "after one trade it comes to Deccan's own bid: the rest is cancelled",
    },
    Step {
        time: "10:00",
        call: Call::Cancel {
            member: 1,
            number: 3,
        },
        note: "order 3 is not Bharat's",
    },
    Step {
        time: "10:05",
        call: Call::Place(NewOrder {
            member: 0,
            instrument: 2,
            side: Side::Offer,
            term: Term::Day,
            rate: 57_500,
            lots: 5,
        }),
        note: "",
    },
    Step {
        time: "10:06",
        call: Call::Place(NewOrder {
            member: 0,
            instrument: 1,
            side: Side::Bid,
            term: Term::Day,
            rate: 65_000,
            lots: 8,
        }),
        note: "",
    },
    Step {
        time: "10:10",
        call: Call::AskListing { instrument: 0 },
        note: "",
    },
    Step {
        time: "11:00",
        call: Call::Cancel {
            member: 0,
            number: 12,
        },
        note: "",
    },
    Step {
        time: "12:00",
        call: Call::Withdraw {
            member: 0,
            amount: 15_000,
        },
        note: "what the need leaves free may be withdrawn",
    },
    Step {
        time: "17:00",
        call: Call::Close,
        note: "what still waits is cancelled, lowest number first",
    },
    Step {
        time: "17:01",
        call: Call::Place(NewOrder {
            member: 0,
            instrument: 0,
            side: Side::Bid,
            term: Term::Day,
            rate: 61_000,
            lots: 5,
        }),
        note: "the day is over",
    },
];
