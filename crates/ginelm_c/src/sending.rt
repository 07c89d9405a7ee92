// A replica sends what it wrote, and takes in what comes.
ghost use Rattle.std.specs.Prelude.{◌≡◌, ◌≢◌, ◌↔◌, Some, IsTrue, OnOk, OnErr};
ghost use Rattle.wire_form.specs.Message.{message_of};
ghost use Rattle.replica_model.specs.Step.{Do, Flush, Nothing, KnowsNone};
ghost use Rattle.replica_core.specs.Meaning.{meaning};
ghost use Rattle.ginelm_c.specs.declared.held.Held.{Held};
ghost use Rattle.ginelm_c.specs.Handling.{Between, IsSame, Sent, StaysEmpty, StaysFull};
ghost use Rattle.ginelm_c.specs.Sending.{SentAtMost, Takes, TakesIn, number_of};

use crate::answer::{EMPTY, told};
use crate::handle::Handle;
use crate::held::Held;
use crate::named::Named;
use crate::texts::Texts;
use dots::Refusal;
use replica_core::{Outcome, Taken};
use std::alloc::Global;
use wire_form::{Message, decode};

fn flush(held: &mut Held) -> Result<(), Refusal>
    ensures ok { OnOk result (Sent held.old held.new (Do Flush) Nothing) }
    ensures unchanged { OnErr result (IsSame held.old held.new) }
{
    let letter = held.replica.flush_bytes()?;
    held.texts = Texts::Sent(letter);
    Ok(())
}

/// What was made since the last flush becomes the text, as one message for everyone; no text, where nothing was made.
#[unsafe(no_mangle)]
pub extern "C" fn ginelm_flush(alloc: Global, here: &mut Handle) -> u32
    ensures none { StaysEmpty here.old.value here.new.value result }
    ensures kept { StaysFull here.old.value here.new.value }
    ensures done { result ≡ 0 → Between here.old.value here.new.value (λ x y. Sent x y (Do Flush) Nothing) }
    ensures refused { result ≢ 0 → Between here.old.value here.new.value IsSame }
{
    let Some(mut held) = here.take(alloc) else {
        return EMPTY;
    };
    let answer = told(flush(&mut held));
    here.give(held);
    answer
}

fn flush_at_most(held: &mut Held, most: u64) -> Result<(), Refusal>
    ensures ok { OnOk result (SentAtMost held.old held.new most) }
    ensures unchanged { OnErr result (IsSame held.old held.new) }
{
    let letter = held.replica.flush_at_most(most)?;
    held.texts = Texts::Sent(letter);
    Ok(())
}

/// What was made first since the last flush becomes the text, as one message for everyone of at most so many bytes; no text, where nothing was
/// made. What does not fit waits. One write whose message is longer by itself goes out alone.
#[unsafe(no_mangle)]
pub extern "C" fn ginelm_flush_at_most(alloc: Global, here: &mut Handle, most: u64) -> u32
    ensures none { StaysEmpty here.old.value here.new.value result }
    ensures kept { StaysFull here.old.value here.new.value }
    ensures done { result ≡ 0 → Between here.old.value here.new.value (λ x y. SentAtMost x y most) }
    ensures refused { result ≢ 0 → Between here.old.value here.new.value IsSame }
{
    let Some(mut held) = here.take(alloc) else {
        return EMPTY;
    };
    let answer = told(flush_at_most(&mut held, most));
    here.give(held);
    answer
}

/// Tells whether something waits to be sent: whether a flush gives a message.
#[unsafe(no_mangle)]
pub extern "C" fn ginelm_has_unsent(alloc: Global, here: &mut Handle, unsent: &mut bool) -> u32
    ensures none { StaysEmpty here.old.value here.new.value result }
    ensures same { here.new.value ≡ here.old.value }
    ensures told { (x : Held) → here.old.value ≡ Some x → (result ≡ 0) × (IsTrue unsent.new ↔ ¬ KnowsNone (meaning x.replica).group) }
{
    let Some(held) = here.take(alloc) else {
        return EMPTY;
    };
    *unsent = held.replica.has_unsent();
    here.give(held);
    0
}

// The number of an outcome.
pub(crate) fn outcome_number(outcome: Outcome) -> u32
    ensures { result ≡ number_of outcome }
{
    match outcome {
        Outcome::Joined => 1,
        Outcome::Sent => 2,
        Outcome::Done => 3,
        Outcome::Ignored => 4,
        Outcome::Mismatch => 5,
        Outcome::Gone => 6,
    }
}

// Takes in what is decoded.
pub(crate) fn take(
    held: &mut Held,
    message: Message,
    outcome: &mut u32,
    session: &mut Named,
) -> Result<(), Refusal>
    ensures ok { OnOk result (TakesIn held.old held.new (message_of message) outcome.new session.new) }
    ensures unchanged { OnErr result (IsSame held.old held.new) }
    ensures untold_outcome { OnErr result (outcome.new ≡ outcome.old) }
    ensures untold_session { OnErr result (session.new ≡ session.old) }
{
    let Taken {
        outcome: came,
        session: of,
        letters,
    } = held.replica.take(message)?;
    held.texts = Texts::Letters(letters);
    *outcome = outcome_number(came);
    *session = Named::of(of);
    Ok(())
}

fn take_bytes(
    alloc: Global,
    held: &mut Held,
    bytes: &[u8],
    outcome: &mut u32,
    session: &mut Named,
) -> Result<(), Refusal>
    ensures ok { OnOk result (Takes held.old held.new bytes.now outcome.new session.new) }
    ensures unchanged { OnErr result (IsSame held.old held.new) }
    ensures untold_outcome { OnErr result (outcome.new ≡ outcome.old) }
    ensures untold_session { OnErr result (session.new ≡ session.old) }
{
    let message = decode(alloc, bytes)?;
    take(held, message, outcome, session)
}

/// Takes a message in by its bytes, whatever it says, and tells what came of it by number, and the synchronisation that it named. What is to
/// be sent for it becomes the texts. It is for messages that may be forged: by one, a replica learns of a write that it never made.
#[unsafe(no_mangle)]
pub extern "C" fn ginelm_take_unguarded(
    alloc: Global,
    here: &mut Handle,
    bytes: &[u8],
    outcome: &mut u32,
    session: &mut Named,
) -> u32
    ensures none { StaysEmpty here.old.value here.new.value result }
    ensures kept { StaysFull here.old.value here.new.value }
    ensures done { result ≡ 0 → Between here.old.value here.new.value (λ x y. Takes x y bytes.now outcome.new session.new) }
    ensures refused { result ≢ 0 → Between here.old.value here.new.value IsSame }
    ensures untold_outcome { result ≢ 0 → outcome.new ≡ outcome.old }
    ensures untold_session { result ≢ 0 → session.new ≡ session.old }
{
    let Some(mut held) = here.take(alloc) else {
        return EMPTY;
    };
    let answer = told(take_bytes(alloc, &mut held, bytes, outcome, session));
    here.give(held);
    answer
}
