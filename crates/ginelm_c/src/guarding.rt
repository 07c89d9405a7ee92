// Whether a message tells that the replica's name was used without its memory, and messages that are not taken in where they do.
ghost use Rattle.std.specs.Prelude.{◌≡◌, ◌≢◌, ◌↔◌, ◌⊎◌, Some, IsTrue, OnOk};
ghost use Rattle.wire_form.specs.Message.{MessageValue, Spells, message_of};
ghost use Rattle.replica_model.specs.Mail.{mail_of};
ghost use Rattle.replica_core.specs.Guarding.{HasLost};
ghost use Rattle.replica_core.specs.Meaning.{meaning};
ghost use Rattle.ginelm_c.specs.declared.held.Held.{Held};
ghost use Rattle.ginelm_c.specs.Handling.{Between, IsSame, StaysEmpty, StaysFull};
ghost use Rattle.ginelm_c.specs.Sending.{Takes, TakesIn, TellsLoss};

use crate::answer::{EMPTY, LOST_MEMORY, told};
use crate::handle::Handle;
use crate::held::Held;
use crate::named::Named;
use crate::sending::take;
use dots::Refusal;
use std::alloc::Global;
use wire_form::{Message, decode};

fn has_lost(alloc: Global, held: &Held, bytes: &[u8], lost: &mut bool) -> Result<(), Refusal>
    ensures ok { OnOk result ((message : MessageValue) × Spells bytes.now message × (IsTrue lost.new ↔ HasLost (meaning held.now.replica) (mail_of message))) }
{
    let message = decode(alloc, bytes)?;
    *lost = held.replica.has_lost(&message);
    drop(message);
    Ok(())
}

/// Tells whether the message knows a write of this replica's name that the replica does not know: then the name is used by two, or was used before
/// and its memory is lost, and ginelm_take does not take it.
#[unsafe(no_mangle)]
pub extern "C" fn ginelm_has_lost(
    alloc: Global,
    here: &mut Handle,
    bytes: &[u8],
    lost: &mut bool,
) -> u32
    ensures none { StaysEmpty here.old.value here.new.value result }
    ensures same { here.new.value ≡ here.old.value }
    ensures done { result ≡ 0 → (x : Held) → here.old.value ≡ Some x
        → (message : MessageValue) × Spells bytes.now message × (IsTrue lost.new ↔ HasLost (meaning x.replica) (mail_of message)) }
{
    let Some(held) = here.take(alloc) else {
        return EMPTY;
    };
    let answer = told(has_lost(alloc, &held, bytes, lost));
    here.give(held);
    answer
}

// Takes the message in, but where it tells of a lost memory: then nothing is changed.
fn take_guarded(
    alloc: Global,
    held: &mut Held,
    bytes: &[u8],
    outcome: &mut u32,
    session: &mut Named,
) -> u32
    ensures done { result ≡ 0 → Takes held.old held.new bytes.now outcome.new session.new }
    ensures refused { result ≢ 0 → IsSame held.old held.new }
    ensures lost { result ≡ 19 → TellsLoss held.old bytes.now }
    ensures stays { result ≡ 19 → held.new ≡ held.old }
    ensures guarded { TellsLoss held.old bytes.now → (result ≡ 19) ⊎ (result ≡ 1) }
    ensures untold_outcome { result ≢ 0 → outcome.new ≡ outcome.old }
    ensures untold_session { result ≢ 0 → session.new ≡ session.old }
{
    match decode(alloc, bytes) {
        Ok(message) => take_decoded(held, message, outcome, session),
        Err(refusal) => told(Err(refusal)),
    }
}

// Takes a message in that is decoded, but where it tells of a lost memory.
fn take_decoded(held: &mut Held, message: Message, outcome: &mut u32, session: &mut Named) -> u32
    ensures done { result ≡ 0 → TakesIn held.old held.new (message_of message) outcome.new session.new }
    ensures refused { result ≢ 0 → IsSame held.old held.new }
    ensures lost { result ≡ 19 → HasLost (meaning held.old.replica) (mail_of (message_of message)) }
    ensures stays { result ≡ 19 → held.new ≡ held.old }
    ensures guarded { HasLost (meaning held.old.replica) (mail_of (message_of message)) → result ≡ 19 }
    ensures untold_outcome { result ≢ 0 → outcome.new ≡ outcome.old }
    ensures untold_session { result ≢ 0 → session.new ≡ session.old }
{
    if held.replica.has_lost(&message) {
        drop(message);
        return LOST_MEMORY;
    }
    told(take(held, message, outcome, session))
}

/// Takes a message in by its bytes, and tells what came of it by number, and the synchronisation that it named. What is to be sent for it
/// becomes the texts. 19 just where the message knows a write of this replica's name that the replica does not know, unless no memory is found
/// to decode it: then the name is used by two, or was used before and its memory is lost, and nothing is changed.
#[unsafe(no_mangle)]
pub extern "C" fn ginelm_take(
    alloc: Global,
    here: &mut Handle,
    bytes: &[u8],
    outcome: &mut u32,
    session: &mut Named,
) -> u32
    ensures none { StaysEmpty here.old.value here.new.value result }
    ensures kept { StaysFull here.old.value here.new.value }
    ensures done { result ≡ 0 → Between here.old.value here.new.value (λ x y. Takes x y bytes.now outcome.new session.new) }
    ensures refused { result ≢ 0 → Between here.old.value here.new.value IsSame }
    ensures lost { result ≡ 19 → (x : Held) → here.old.value ≡ Some x → TellsLoss x bytes.now }
    ensures stays { result ≡ 19 → here.new.value ≡ here.old.value }
    ensures guarded { (x : Held) → here.old.value ≡ Some x → TellsLoss x bytes.now → (result ≡ 19) ⊎ (result ≡ 1) }
    ensures untold_outcome { result ≢ 0 → outcome.new ≡ outcome.old }
    ensures untold_session { result ≢ 0 → session.new ≡ session.old }
{
    let Some(mut held) = here.take(alloc) else {
        return EMPTY;
    };
    let answer = take_guarded(alloc, &mut held, bytes, outcome, session);
    here.give(held);
    answer
}
