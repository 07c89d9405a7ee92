// What the end of a synchronisation brings, as a delta.
ghost use Rattle.std.specs.Prelude.{◌≡◌, ◌≢◌, IfOk, IfSome, None, OnOk, OnErr};
ghost use Rattle.causal_join.specs.OrMap.{or_map_state};
ghost use Rattle.wire_form.specs.Message.{MessageValue, Spells};
ghost use Rattle.replica_model.specs.Mail.{Delta, mail_of};
ghost use Rattle.ginelm_c.specs.Handling.{Between, StaysEmpty, StaysFull};
ghost use Rattle.ginelm_c.specs.Sending.{IsBrought, TellsBrought};

use crate::answer::{EMPTY, told};
use crate::handle::Handle;
use crate::held::Held;
use crate::texts::Texts;
use causal_join::OrMap;
use dots::Refusal;
use replica_core::{Letter, Replica};
use std::alloc::Global;
use wire_form::decode;

fn letter_of(alloc: Global, delta: OrMap) -> Result<Letter, Refusal>
    ensures spelled { IfOk result (λ letter. (message : MessageValue) × Spells letter.bytes.items message × (mail_of message ≡ Delta (or_map_state delta))) }
    ensures everyone { IfOk result (λ letter. letter.to ≡ None) }
{
    let letter = Letter::of_delta(alloc, &delta);
    drop(delta);
    Ok(letter?)
}

// A delta of what the message that the bytes spell brings where it ends a synchronisation, if there is one.
fn brought(alloc: Global, replica: &Replica, bytes: &[u8]) -> Result<Option<Letter>, Refusal>
    ensures { IfOk result (λ found. (message : MessageValue) × Spells bytes.now message × IfSome found (λ letter. (letter.to ≡ None) × IsBrought letter.bytes.items replica.now message)) }
{
    let message = decode(alloc, bytes)?;
    let delta = replica.joined_by(&message);
    drop(message);
    let Some(delta) = delta? else {
        return Ok(None);
    };
    Ok(Some(letter_of(alloc, delta)?))
}

fn joined_by(alloc: Global, held: &mut Held, bytes: &[u8]) -> Result<(), Refusal>
    ensures ok { OnOk result (TellsBrought held.old held.new bytes.now) }
    ensures unchanged { OnErr result (held.new ≡ held.old) }
{
    let letter = brought(alloc, &held.replica, bytes)?;
    held.texts = Texts::Sent(letter);
    Ok(())
}

/// What this message will join in, where it is taken and ends an own synchronisation, becomes the text, as one message for everyone: it can be
/// kept in place of all that is held. No text, where it will end none, where more dots are new than keys are held, or where a dot at a key that
/// can change may stand at another one too.
#[unsafe(no_mangle)]
pub extern "C" fn ginelm_joined_by(alloc: Global, here: &mut Handle, bytes: &[u8]) -> u32
    ensures none { StaysEmpty here.old.value here.new.value result }
    ensures kept { StaysFull here.old.value here.new.value }
    ensures done { result ≡ 0 → Between here.old.value here.new.value (λ x y. TellsBrought x y bytes.now) }
    ensures refused { result ≢ 0 → here.new.value ≡ here.old.value }
{
    let Some(mut held) = here.take(alloc) else {
        return EMPTY;
    };
    let answer = told(joined_by(alloc, &mut held, bytes));
    here.give(held);
    answer
}
