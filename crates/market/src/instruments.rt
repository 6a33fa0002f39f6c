/// The floating rate that a swap's fixed rate is exchanged for.
#[derive(Clone, Copy, PartialEq, Eq, Debug)]
pub enum Benchmark {
    /// The Mumbai interbank offer rate.
    Mibor,
    /// The Mumbai interbank forward offer rate.
    Mmfor,
}

/// The group of tenors that an instrument belongs to. Order limits are set for each group.
#[derive(Clone, Copy, PartialEq, Eq, Debug)]
pub enum TenorGroup {
    UpToOneYear,
    /// Over one year and up to five.
    UpToFiveYears,
    OverFiveYears,
}

/// An instrument that is defined. Its factor is with the margin keeper.
#[derive(Clone, Copy, PartialEq, Eq, Debug)]
pub struct Instrument {
    pub benchmark: Benchmark,
    pub group: TenorGroup,
}
