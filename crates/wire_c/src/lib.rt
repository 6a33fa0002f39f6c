//! The entry of the core for hosts in C: a static library over `wire`.

#![tactic(auto)]

ghost use Rattle.std.specs.Prelude.{◌≡◌};
ghost use Rattle.wire.specs.Messages.{reading, legality};

use wire::messages;

/// 0 for a legal message, else the number of the reader's refusal.
#[unsafe(no_mangle)]
pub extern "C" fn pungetsai_check_message(message: &[u8]) -> u8
    ensures { result ≡ legality (reading message.now) }
{
    messages::pungetsai_check_message(message)
}
