use crate::summing::SummingKeeper;
use positions::tariff::Gross;

/// The gross keeper: lots bought are not offset against lots sold.
pub type GrossKeeper = SummingKeeper<Gross>;
