//! Runs of calls: the ledger of a run, what is promised of every run, and the proof.

#![tactic(auto)]

ghost use Rattle.std.specs.Prelude.{◌≡◌};
ghost use Rattle.runs.specs.Promises.{SoundOverEveryKeeper};

/// How many places a list for events has to have: no call of any run tells more.
pub fn event_places() -> usize
    ensures places { result ≡ 257 }
    ensures sound { SoundOverEveryKeeper }
{
    every_run_is_sound();
    257
}

// Carries the proof.
fn every_run_is_sound()
    ensures { SoundOverEveryKeeper }
{}
