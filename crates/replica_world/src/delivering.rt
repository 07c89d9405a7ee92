// A message of a world delivered to a replica.
ghost use Rattle.std.specs.Prelude.{◌≡◌, IfOk, OnErr, IsOkUnless, MatchResult};
ghost use Rattle.wire_form.specs.Message.{message_of};
ghost use Rattle.replica_model.specs.Mail.{Mail, mail_of};
ghost use Rattle.replica_core.specs.Stepping.{Stays};
ghost use Rattle.replica_world.specs.Happening.{answer_value};
ghost use Rattle.replica_world.specs.Keeping.{TakesMail};
ghost use Rattle.replica_model.specs.Spelled.{IsSpelled};

use crate::answer::Answer;
use crate::posted::Posted;
use dots::Refusal;
use hash_path::PathHash;
use replica_core::Replica;
use std::alloc::Allocator;
use wire_form::{Message, decode};

// The message that these bytes spell.
pub(crate) fn read<A: Allocator + Copy>(alloc: A, bytes: &[u8]) -> Result<Message<A>, Refusal>
    ensures { (mail : Mail) → IsSpelled bytes.now mail → MatchResult result (λ message. mail_of (message_of message) ≡ mail) (λ refusal. refusal ≡ Refusal.OutOfMemory) }
{
    match decode(alloc, bytes) {
        Ok(message) => Ok(message),
        Err(refusal) => Err(refusal),
    }
}

// Takes a message in at a replica, and posts what it sends. A refused one changes nothing.
pub(crate) fn take<H: PathHash, A: Allocator + Copy>(
    replica: &mut Replica<H, A>,
    posted: &mut Posted<A>,
    message: &Message<A>,
) -> Result<Answer, Refusal>
    ensures ok { IfOk result (λ answer. TakesMail H.hash_of replica.old replica.new (mail_of (message_of message.now)) (answer_value answer) posted.old posted.new) }
    ensures refused { IsOkUnless result Refusal.OutOfMemory }
    ensures unchanged { OnErr result (Stays replica.old replica.new) }
    ensures unposted { OnErr result (posted.new ≡ posted.old) }
{
    match replica.deliver_to(message, posted) {
        Ok(told) => {
            let outcome = told.outcome;
            drop(told);
            Ok(Answer::Outcome(outcome))
        }
        Err(refusal) => Err(refusal),
    }
}
