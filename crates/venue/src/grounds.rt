ghost use Rattle.std.specs.Prelude.{◌≡◌, ◌≤◌, [], ◌∷◌, not, ◌||◌, OnOk};
ghost use Rattle.market.specs.declared.refusals.Refusal.TheVariants.{ListTooShort as TooShort, WrongPhase as Wrong};
ghost use Rattle.market.specs.Grounds.{checked, ◌when◌, is_short, is_set_up, is_open};
ghost use Rattle.venue.specs.Obeys.{is_phase};

use market::calls::{LIST_PLACES, Phase};
use market::refusals::Refusal;

// Grounds that several calls have in common.

/// A list that is lent for events or for a listing.
pub(crate) fn check_list(places: usize) -> Result<(), Refusal>
    ensures checked { result ≡ checked ((TooShort when is_short places) ∷ []) }
    ensures long { OnOk result (257 ≤ places) }
{
    if places < LIST_PLACES {
        return Err(Refusal::ListTooShort);
    }
    Ok(())
}

/// A call that belongs to one phase.
pub(crate) fn check_phase(phase: Phase, wanted: Phase) -> Result<(), Refusal>
    ensures { result ≡ checked ((Wrong when not (is_phase wanted phase)) ∷ []) }
{
    if phase != wanted {
        return Err(Refusal::WrongPhase);
    }
    Ok(())
}

/// A call that belongs to set-up and to the open phase.
pub(crate) fn check_not_closed(phase: Phase) -> Result<(), Refusal>
    ensures { result ≡ checked ((Wrong when not (is_set_up phase || is_open phase)) ∷ []) }
{
    if phase == Phase::Closed {
        return Err(Refusal::WrongPhase);
    }
    Ok(())
}
