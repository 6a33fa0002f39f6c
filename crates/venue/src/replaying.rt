ghost use Rattle.std.specs.Prelude.{◌≡◌, length};
ghost use Rattle.runs.specs.Deeds.{market_at_end};
ghost use Rattle.venue.specs.Reads.{market_of};
ghost use Rattle.venue.specs.Replays.{Replayed, made_with, list_at_end};

use crate::state::Venue;
use margin::keeper::Keeper;
use market::calls::Call;
use market::events::Event;

/// Makes the calls of a log one after another on a venue that begins over a keeper, and gives the venue after them.
/// Each call writes its events from the list's first place on.
pub fn replay<K: Keeper>(keeper: K, log: &[Call], events: &mut [Event]) -> Venue<K>
    ensures { Replayed K.Keeper.charge K.Keeper.REACH (K.Keeper.sheet keeper) log.now (market_of K.Keeper.sheet result) events.old events.new }
{
    replay_all(keeper, log, events)
}

fn replay_all<K: Keeper>(keeper: K, log: &[Call], events: &mut [Event]) -> Venue<K>
    ensures { Replayed K.Keeper.charge K.Keeper.REACH (K.Keeper.sheet keeper) log.now (market_of K.Keeper.sheet result) events.old events.new }
{
    make_all(Venue::begin(keeper), log, events)
}

fn make_all<K: Keeper>(mut venue: Venue<K>, log: &[Call], events: &mut [Event]) -> Venue<K>
    ensures became { market_of K.Keeper.sheet result ≡ market_at_end K.Keeper.charge K.Keeper.REACH (market_of K.Keeper.sheet venue) (made_with (length events.old) log.now) }
    ensures told { events.new ≡ list_at_end K.Keeper.charge K.Keeper.REACH (market_of K.Keeper.sheet venue) (made_with (length events.old) log.now) events.old }
{
    for call in log {
        let _ = venue.make(*call, events);
    }
    venue
}
