ghost use Rattle.std.specs.Prelude.{◌≡◌, ◌<◌};
ghost use Rattle.arrayvec.specs.ArrayVec.{array_vec_len};
ghost use Rattle.row.specs.Rows.{inserted, without};

use crate::books::PLACES;
use arrayvec::ArrayVec;
use row::precedence::Precedence;

// Puts an entry where its precedence says. There has to be room.
pub(crate) fn put_in_order<E: Precedence>(entries: &mut ArrayVec<E, PLACES>, entry: E)
    requires { array_vec_len entries.old < 256 }
    ensures { entries.new.items ≡ inserted E.Precedence.test entry entries.old.items }
{
    // The push makes room: the insert writes over the last place.
    let n = entries.len();
    entries.push(entry);
    let _ = row::insert(entries.as_mut_slice(), n, entry);
}

// Takes out the entry at a place.
#[tactic(auto, using(crate::proofs::Places::take_removed))]
pub(crate) fn take_out<E: Precedence + Default + Drop>(
    entries: &mut ArrayVec<E, PLACES>,
    place: usize,
)
    requires { place < array_vec_len entries.old }
    ensures { entries.new.items ≡ without place entries.old.items }
{
    // The row leaves the last entry where it stood, and the pop takes it off.
    let n = entries.len();
    let _ = row::remove(entries.as_mut_slice(), n, place);
    entries.pop();
}
