//! The morning that the demonstration plays: who takes part, in what, and what is called.

use terms::Side;

/// A member, and the deposit behind its trades in half-rupees. Its number is its place in `MEMBERS`.
pub struct Member {
    pub name: &'static str,
    pub deposit: u64,
}

/// An instrument, by its place in `INSTRUMENTS`.
pub struct Instrument {
    pub name: &'static str,
}

/// The operator gives an instrument its factor, in rupees a lot.
pub struct FactorCall {
    pub instrument: u8,
    pub factor: u32,
    pub note: &'static str,
}

/// A trade is reported.
pub struct Trade {
    pub time: &'static str,
    pub buyer: u8,
    pub seller: u8,
    pub instrument: u8,
    pub lots: u32,
    pub note: &'static str,
}

/// A member asks what a trade would make of its need.
pub struct Question {
    pub time: &'static str,
    pub member: u8,
    pub side: Side,
    pub instrument: u8,
    pub lots: u32,
    pub note: &'static str,
}

/// What happens while members deal, with a note on what it shows.
pub enum Step {
    Trade(Trade),
    Question(Question),
}

pub static MEMBERS: [Member; 3] = [
    Member {
        name: "Asha Bank",
        deposit: 20_000,
    },
    Member {
        name: "Bharat Securities",
        deposit: 10_000,
    },
    Member {
        name: "Chandra Bank",
        deposit: 2_000,
    },
];

pub static INSTRUMENTS: [Instrument; 3] = [
    Instrument {
        name: "MIBOR, over one and up to five years",
    },
    Instrument {
        name: "MIBOR, over five years",
    },
    Instrument {
        name: "MMFOR, up to one year",
    },
];

pub static FACTOR_CALLS: [FactorCall; 4] = [
    FactorCall {
        instrument: 0,
        factor: 100,
        note: "",
    },
    FactorCall {
        instrument: 1,
        factor: 250,
        note: "",
    },
    FactorCall {
        instrument: 1,
        factor: 40,
        note: "The operator meant instrument 2. A factor is set once; the first one stands.",
    },
    FactorCall {
        instrument: 2,
        factor: 40,
        note: "",
    },
];

pub static STEPS: [Step; 8] = [
    Step::Trade(Trade {
        time: "09:15",
        buyer: 0,
        seller: 2,
        instrument: 0,
        lots: 5,
        note: "Each lot on one side is charged the factor: 100 rupees, which are 200 half-rupees.",
    }),
    Step::Trade(Trade {
        time: "09:20",
        buyer: 1,
        seller: 2,
        instrument: 0,
        lots: 4,
        note: "The seller's need grows close to its deposit.",
    }),
    Step::Question(Question {
        time: "09:28",
        member: 2,
        side: Side::Bid,
        instrument: 0,
        lots: 4,
        note: "Asking records nothing. Half of the smaller total is offset against the larger.",
    }),
    Step::Trade(Trade {
        time: "09:31",
        buyer: 2,
        seller: 0,
        instrument: 0,
        lots: 4,
        note: "The buyer's need is what it was told.",
    }),
    Step::Trade(Trade {
        time: "09:40",
        buyer: 0,
        seller: 1,
        instrument: 7,
        lots: 10,
        note: "Instrument 7 has no factor. Nothing is recorded, for either member.",
    }),
    Step::Trade(Trade {
        time: "09:41",
        buyer: 0,
        seller: 1,
        instrument: 1,
        lots: 10,
        note: "The instrument that was meant.",
    }),
    Step::Trade(Trade {
        time: "09:50",
        buyer: 0,
        seller: 1,
        instrument: 1,
        lots: 100_000,
        note: "100,000 was typed for 10: the totals would pass the keepers' reach of 100,000 lots.",
    }),
    Step::Trade(Trade {
        time: "10:00",
        buyer: 1,
        seller: 0,
        instrument: 2,
        lots: 20,
        note: "Instruments are charged one by one; there is no offset between them.",
    }),
];
