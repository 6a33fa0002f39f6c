use book::books::Book;
use market::calls::Phase;
use market::instruments::Instrument;
use market::members::Member;

/// Members are 0 to 31.
pub(crate) const MEMBERS: usize = 32;

/// Instruments are 0 to 15.
pub(crate) const INSTRUMENTS: usize = 16;

/// Factors are from 1 to this, in rupees a lot.
pub(crate) const HIGHEST_FACTOR: u32 = 100_000;

/// The most lots of one order, whoever places it.
pub(crate) const HIGHEST_LOTS: u16 = 1_000;

/// Rates are from its negative to this, in ten-thousandths of a per cent.
pub(crate) const HIGHEST_RATE: i32 = 500_000;

/// A table of `N` rows by number, some of them empty.
#[derive(Drop)]
pub struct Table<R, const N: usize> {
    pub(crate) rows: [Option<R>; N],
}

/// A row for each member that is admitted.
pub type Members = Table<Member, MEMBERS>;

/// A row for each instrument that is defined.
pub type Instruments = Table<Instrument, INSTRUMENTS>;

/// A venue over a margin keeper.
///
/// Its calls take their arguments one by one, as whoever makes them has them; `Call` holds them together.
#[derive(Drop)]
pub struct Venue<K> {
    pub(crate) phase: Phase,
    pub(crate) members: Members,
    pub(crate) instruments: Instruments,
    pub(crate) book: Book,
    pub(crate) given: u16,
    pub(crate) keeper: K,
}
