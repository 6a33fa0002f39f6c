use crate::summing::SummingKeeper;
use positions::tariff::Standard;

/// The reckoner: the standard charge, added up when it is asked.
pub type Reckoner = SummingKeeper<Standard>;
