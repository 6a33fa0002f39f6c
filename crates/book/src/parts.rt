ghost use Rattle.std.specs.Prelude.{◌≡◌, ◌*◌, ◌≤◌, length, sum_by};
ghost use Rattle.book.specs.Parts.{is_in_part, counted_lots, part_lots};
ghost use Rattle.book.specs.Reads.{rows_of};

use crate::books::Book;
use crate::entry::Entry;
use crate::orders::is_at;
use crate::part::Part;

impl Part {
    /// Whether an entry stands in this part.
    pub fn has(&self, entry: &Entry) -> bool
        ensures { result ≡ is_in_part self.now entry.now }
    {
        match self {
            Part::Whole => true,
            Part::Instrument(instrument) => *instrument == entry.instrument,
            Part::Row(side, instrument) => is_at(entry, *side, *instrument),
        }
    }
}

impl Book {
    /// A member's lots pending in a part of the book.
    #[tactic(auto, using(crate::proofs::Loops::part_lots_are))]
    pub fn pending(&self, part: Part, member: u8) -> u32
        ensures value { result ≡ part_lots part (rows_of self.now) member }
        ensures few { result ≤ 65535 * 256 }
    {
        sum_lots(&self.entries, &part, member)
    }
}

// The lots of a member among the entries that stand in a part.
fn sum_lots(entries: &[Entry], part: &Part, member: u8) -> u32
    requires { length entries.now ≤ 256 }
    ensures value { result ≡ sum_by (counted_lots part.now member) entries.now }
    ensures few { result ≤ 65535 * 256 }
{
    entries
        .iter()
        .map(|entry| lots_counted(part, member, entry))
        .sum()
}

// What one entry adds.
fn lots_counted(part: &Part, member: u8, entry: &Entry) -> u32
    ensures value { result ≡ counted_lots part.now member entry.now }
    ensures few { result ≤ 65535 }
{
    if part.has(entry) && entry.order.member == member {
        u32::from(entry.order.lots)
    } else {
        0
    }
}
