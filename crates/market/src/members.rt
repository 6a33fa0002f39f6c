/// The benchmarks that a member has opted for: it may place orders in their instruments only.
#[derive(Clone, Copy, PartialEq, Eq, Debug)]
pub enum Benchmarks {
    Mibor,
    Mmfor,
    Both,
}

/// What a member may do.
#[derive(Clone, Copy, PartialEq, Eq, Debug)]
pub enum Mode {
    /// Risk reduction: the member may only trade what lowers its need, and at once. Every member begins in it.
    Reduction,
    Normal,
}

/// A member's single order limits: the most lots of one order, for each group of tenors.
#[derive(Clone, Copy, PartialEq, Eq, Debug)]
pub struct Limits {
    pub up_to_one_year: u16,
    pub up_to_five_years: u16,
    pub over_five_years: u16,
}

/// A member that is admitted.
#[derive(Clone, Copy, PartialEq, Eq, Debug)]
pub struct Member {
    pub benchmarks: Benchmarks,
    pub limits: Limits,
    /// In half-rupees.
    pub deposit: u64,
    pub mode: Mode,
}

/// What a member is told of itself.
#[derive(Clone, Copy, PartialEq, Eq, Debug)]
pub struct Standing {
    /// The margin charged on its trades, in half-rupees.
    pub need: u64,
    /// In half-rupees.
    pub deposit: u64,
    pub mode: Mode,
}
