// Messages that are taken in where they do not tell of a lost memory.
ghost use Rattle.std.specs.Prelude.{◌≡◌, ◌⊎◌, Err, IfOk, IfErr, OnErr, MatchResult};
ghost use Rattle.wire_form.specs.Message.{MessageValue, Spells, message_of, session_of};
ghost use Rattle.replica_model.specs.Mail.{mail_of};
ghost use Rattle.replica_model.specs.Step.{Came, Take};
ghost use Rattle.replica_core.specs.Answered.{outcome_of};
ghost use Rattle.replica_core.specs.Carrying.{Sends, letters_of};
ghost use Rattle.replica_core.specs.Guarding.{HasLost};
ghost use Rattle.replica_core.specs.Meaning.{meaning};
ghost use Rattle.replica_core.specs.Stepping.{Stays};
ghost use Rattle.ginelm.specs.Guarded.{TellsLoss, IsUntaken};

use crate::take_error::TakeError;
use dots::Refusal;
use hash_path::PathHash;
use replica_core::{Replica, Taken};
use std::alloc::Allocator;
use wire_form::{Message, decode};

/// Takes a message in as `Replica::take_bytes` does, unless it tells that the replica's name was used without its memory: then it is answered
/// LostMemory, and nothing changes.
///
/// LostMemory comes just where the message knows a write of the replica's own name that the replica does not know, unless no memory is found
/// to decode it; else its errors are the refusals of `take_bytes`. Takes what `take_bytes` takes.
pub fn take<H: PathHash, A: Allocator + Copy>(
    alloc: A,
    replica: &mut Replica<H, A>,
    bytes: &[u8],
) -> Result<Taken<A>, TakeError>
    ensures ok { IfOk result (λ taken. (message : MessageValue) × Spells bytes.now message × (taken.session ≡ session_of message)
        × Sends H.hash_of replica.old replica.new (Take (mail_of message)) (Came (outcome_of taken.outcome)) (letters_of taken.letters.items)) }
    ensures untaken { IfErr result (IsUntaken (meaning replica.old) bytes.now) }
    ensures guarded { TellsLoss (meaning replica.old) bytes.now
        → MatchResult result (λ taken. ⊥) (λ error. (error ≡ TakeError.LostMemory) ⊎ (error ≡ TakeError.Refused Refusal.OutOfMemory)) }
    ensures unchanged { OnErr result (Stays replica.old replica.new) }
{
    match decode(alloc, bytes) {
        Ok(message) => take_decoded(replica, message),
        Err(refusal) => Err(TakeError::Refused(refusal)),
    }
}

// Takes the message in, unless it tells of a lost memory.
fn take_decoded<H: PathHash, A: Allocator + Copy>(
    replica: &mut Replica<H, A>,
    message: Message<A>,
) -> Result<Taken<A>, TakeError>
    ensures ok { IfOk result (λ taken. (taken.session ≡ session_of (message_of message))
        × Sends H.hash_of replica.old replica.new (Take (mail_of (message_of message))) (Came (outcome_of taken.outcome)) (letters_of taken.letters.items)) }
    ensures untaken { IfErr result (λ error. ((error ≡ TakeError.LostMemory) × HasLost (meaning replica.old) (mail_of (message_of message)))
        ⊎ (error ≡ TakeError.Refused Refusal.OutOfMemory)) }
    ensures guarded { HasLost (meaning replica.old) (mail_of (message_of message)) → result ≡ Err TakeError.LostMemory }
    ensures unchanged { OnErr result (Stays replica.old replica.new) }
{
    if replica.has_lost(&message) {
        drop(message);
        return Err(TakeError::LostMemory);
    }
    match replica.take(message) {
        Ok(taken) => Ok(taken),
        Err(refusal) => Err(TakeError::Refused(refusal)),
    }
}
