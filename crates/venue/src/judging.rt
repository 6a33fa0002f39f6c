ghost use Rattle.std.specs.Prelude.{◌≡◌, ◌+◌, ◌<◌, ◌≤◌, length};
ghost use Rattle.market.specs.Markets.{with_member};
ghost use Rattle.market.specs.Modes.{judged, judged_member, falls, need, has_fallen, judge};
ghost use Rattle.market.specs.TableRows.{admitted_row, member_row};
ghost use Rattle.venue.specs.Reads.{market_of};
ghost use Rattle.venue.specs.Turns.{pending_count, Did};

use crate::event_list::EventList;
use crate::state::{MEMBERS, Venue};
use book::picked::Picked;
use margin::keeper::Keeper;
use market::events::Reason;
use market::members::{Member, Mode};

/// Judges a member by its need and its deposit, and says whether it went from normal to reduction mode.
pub(crate) fn judge_member(row: &mut Member, need: u64) -> bool
    ensures row { admitted_row row.new ≡ judged_member need (admitted_row row.old) }
    ensures fallen { result ≡ falls row.old.mode (judged need row.old.deposit row.old.mode) }
{
    let before = row.mode;
    let (need, deposit) = (u128::from(need), u128::from(row.deposit));
    if 20 * need >= 19 * deposit {
        row.mode = Mode::Reduction;
    } else if 10 * need < 9 * deposit {
        row.mode = Mode::Normal;
    }
    before == Mode::Normal && row.mode == Mode::Reduction
}

// Where nobody is admitted there is nothing to judge.
fn judge_row(row: &mut Option<Member>, need: u64) -> bool
    ensures row { member_row row.new ≡ judged_member need (member_row row.old) }
    ensures fallen { result ≡ falls (member_row row.old).mode (judged need (member_row row.old).deposit (member_row row.old).mode) }
{
    match row {
        Some(member) => judge_member(member, need),
        None => false,
    }
}

impl<K: Keeper> Venue<K> {
    // Judges a member, and says whether it went from normal to reduction mode: then it loses its pending orders in every instrument.
    pub(crate) fn judge(&mut self, member: u8, list: &mut EventList<'_>) -> bool
        requires { list.old.told + pending_count (market_of K.Keeper.sheet self.old) ≤ length list.old.places.now }
        ensures same_list { list.new.places.ghost_name ≡ list.old.places.ghost_name }
        ensures did { Did (judge K.Keeper.charge (market_of K.Keeper.sheet self.old) member) (market_of K.Keeper.sheet self.new) list.old.places.now list.new.places.now list.old.told list.new.told }
        ensures fallen { result ≡ has_fallen K.Keeper.charge (market_of K.Keeper.sheet self.old) member }
        ensures few { list.new.told + pending_count (market_of K.Keeper.sheet self.new) ≡ list.old.told + pending_count (market_of K.Keeper.sheet self.old) }
    {
        let has_fallen = self.judge_mode(member);
        if has_fallen {
            self.cancel_picked(Picked::OfMember(member), Reason::TurnedToReduction, list);
        }
        has_fallen
    }

    // Of a member that is not in the table there is nothing to judge.
    fn judge_mode(&mut self, member: u8) -> bool
        ensures market { market_of K.Keeper.sheet self.new ≡ with_member (market_of K.Keeper.sheet self.old) member (judged_member (need K.Keeper.charge (market_of K.Keeper.sheet self.old) member) ((market_of K.Keeper.sheet self.old).members member)) }
        ensures fallen { result ≡ has_fallen K.Keeper.charge (market_of K.Keeper.sheet self.old) member }
    {
        // By index: after `get_mut`, as tried, a proof does not see the row written back into the table.
        let m = usize::from(member);
        if m >= MEMBERS {
            return false;
        }
        let need = self.keeper.need(member);
        judge_row(&mut self.members.rows[m], need)
    }
}
