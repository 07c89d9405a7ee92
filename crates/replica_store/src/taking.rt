// What a store takes in.
ghost use Rattle.std.specs.Prelude.{◌≡◌, false, Err, IfOk, IfErr, IfSome, OnOk, IsOkUnless, IsTrue};
ghost use Rattle.sqlite.specs.State.{HasCleanDisk, Survives};
ghost use Rattle.durable_log.specs.Log.{log_state, IsReady};
ghost use Rattle.wire_form.specs.Message.{message_of};
ghost use Rattle.replica_model.specs.Delivery.{Done};
ghost use Rattle.replica_model.specs.Mail.{Mail, Delta, mail_of};
ghost use Rattle.replica_model.specs.Replica.{Replica as ReplicaModel, restarts};
ghost use Rattle.replica_model.specs.Step.{Take, Came};
ghost use Rattle.replica_core.specs.Answered.{outcome_of};
ghost use Rattle.replica_core.specs.Guarding.{HasLost};
ghost use Rattle.replica_core.specs.Meaning.{hash_in, meaning};
ghost use Rattle.replica_core.specs.Saving.{restored};
ghost use Rattle.replica_core.specs.Stepping.{Steps, mails_of};
ghost use Rattle.replica_store.specs.Kept.{Keeps, IsKept, KeepsEither, GainsMessage, GainsDelta};
ghost use Rattle.replica_store.specs.Refusing.{IsUnkept, LeavesByTaking};
ghost use Rattle.replica_store.specs.Took.{TookAs, Joins, BringsAs, BringsNothing};

use crate::keeping::keep_message;
use crate::store::Store;
use crate::store_error::StoreError;
use dots::Refusal;
use durable_log::Log;
use hash_path::PathHash;
use replica_core::{Delivered, Outcome, Replica};
use saved_form::Saved;
use sqlite::Alter;
use std::alloc::Global;
use wire_form::Message;

/// What the replica comes back from.
pub fn saved<H: PathHash>(alloc: Global, replica: &Replica<H>) -> Result<Saved, StoreError>
    ensures saved { IfOk result (λ saved. restored saved ≡ restarts (meaning replica.now)) }
    ensures lost { IfErr result IsUnkept }
{
    let Ok(checkpoint) = replica.checkpoint() else {
        return Err(StoreError::OutOfMemory);
    };
    let saved = checkpoint.saved(alloc);
    drop(checkpoint);
    match saved {
        Ok(saved) => Ok(saved),
        Err(_) => Err(StoreError::OutOfMemory),
    }
}

// All that the replica holds, as a delta.
fn whole<H: PathHash>(alloc: Global, replica: &Replica<H>) -> Result<Message, StoreError>
    ensures all { IfOk result (λ message. mail_of (message_of message) ≡ Delta (meaning replica.now).live) }
    ensures lost { IfErr result IsUnkept }
{
    let Saved {
        name: _,
        opened: _,
        live,
        group,
    } = saved(alloc, replica)?;
    drop(group);
    Ok(Message::Delta(live))
}

// A delta of what the message brings where it ends a session, if there is one.
fn brought<H: PathHash>(replica: &Replica<H>, message: &Message) -> Result<Option<Message>, Refusal>
    ensures ok { IfOk result (λ found. IfSome found (λ m. BringsAs (H.hash_of (hash_in replica.now)) (meaning replica.now) (mail_of (message_of message.now)) (mail_of (message_of m)))) }
    ensures err { IsOkUnless result Refusal.OutOfMemory }
{
    let Some(delta) = replica.joined_by(message)? else {
        return Ok(None);
    };
    Ok(Some(Message::Delta(delta)))
}

// Whether the message is a delta that knows no dot.
fn is_nothing(message: &Message) -> bool
    ensures { IsTrue result → BringsNothing (mail_of (message_of message.now)) }
{
    match message {
        Message::Delta(delta) => delta.context().is_empty(),
        Message::Hello(..) | Message::Opening(..) | Message::Ask(..) => false,
        Message::Page(..) | Message::Gone(..) => false,
    }
}

// Keeps the message.
fn keep_one<S: Alter>(alloc: Global, log: &mut Log<S>, message: &Message) -> Result<(), StoreError>
    ensures kept { HasCleanDisk (log_state S.Store log.new) → OnOk result (IsReady (log_state S.Store log.new) × GainsMessage (log_state S.Store log.old).now.trees (log_state S.Store log.new).now.trees (message_of message.now)) }
    ensures any_moment { Survives (log_state S.Store log.old) (log_state S.Store log.new) (λ db. GainsMessage (log_state S.Store log.old).now.trees db (message_of message.now)) }
    ensures stays { OnOk result (log.new.is_failed ≡ false) }
    ensures lost { IfErr result IsUnkept }
{
    match keep_message(alloc, log, message) {
        Ok(bytes) => {
            drop(bytes);
            Ok(())
        }
        Err(error) => Err(error),
    }
}

// Keeps the delta that the end of a session brought, if it has a dot.
fn keep_brought<S: Alter>(
    alloc: Global,
    log: &mut Log<S>,
    delta: &Message,
) -> Result<(), StoreError>
    requires { log.old.is_failed ≡ false }
    ensures kept { (old new : ReplicaModel) (mail : Mail) → TookAs old mail Done new → Joins old (mail_of (message_of delta.now)) new
        → HasCleanDisk (log_state S.Store log.new) → Keeps (log_state S.Store log.old).now.trees old → OnOk result (IsKept (log_state S.Store log.new) new) }
    ensures any_moment { (old new : ReplicaModel) (mail : Mail) → TookAs old mail Done new → Joins old (mail_of (message_of delta.now)) new
        → HasCleanDisk (log_state S.Store log.new) → Keeps (log_state S.Store log.old).now.trees old → KeepsEither (log_state S.Store log.new) old new }
    ensures clean { HasCleanDisk (log_state S.Store log.new) → HasCleanDisk (log_state S.Store log.old) }
    ensures stays { OnOk result (log.new.is_failed ≡ false) }
    ensures lost { IfErr result IsUnkept }
{
    // proof: the clause `ready` of `is_failed`.
    let _ = log.is_failed();
    if is_nothing(delta) {
        return Ok(());
    }
    keep_one(alloc, log, delta)
}

// Keeps all that the replica holds.
fn keep_all<S: Alter, H: PathHash>(
    alloc: Global,
    log: &mut Log<S>,
    replica: &Replica<H>,
) -> Result<(), StoreError>
    requires { log.old.is_failed ≡ false }
    ensures kept { HasCleanDisk (log_state S.Store log.new) → OnOk result (IsReady (log_state S.Store log.new) × GainsDelta (log_state S.Store log.old).now.trees (log_state S.Store log.new).now.trees (meaning replica.now).live) }
    ensures any_moment { Survives (log_state S.Store log.old) (log_state S.Store log.new) (λ db. GainsDelta (log_state S.Store log.old).now.trees db (meaning replica.now).live) }
    ensures stays { OnOk result (log.new.is_failed ≡ false) }
    ensures lost { IfErr result IsUnkept }
{
    // proof: the clause `ready` of `is_failed`.
    let _ = log.is_failed();
    let all = whole(alloc, replica)?;
    let kept = keep_one(alloc, log, &all);
    drop(all);
    kept
}

// Keeps what the message brought: of a delta the message, of the end of a session the delta that is given, if it has a dot, or else all that the
// replica holds now, and of any other nothing.
fn keep_taken<S: Alter, H: PathHash>(
    alloc: Global,
    log: &mut Log<S>,
    replica: &Replica<H>,
    message: &Message,
    brought: &Option<Message>,
    outcome: Outcome,
) -> Result<(), StoreError>
    requires { log.old.is_failed ≡ false }
    ensures kept { (old : ReplicaModel) → TookAs old (mail_of (message_of message.now)) (outcome_of outcome) (meaning replica.now) → IfSome brought.now (λ m. Joins old (mail_of (message_of m)) (meaning replica.now))
        → HasCleanDisk (log_state S.Store log.new) → Keeps (log_state S.Store log.old).now.trees old → OnOk result (IsKept (log_state S.Store log.new) (meaning replica.now)) }
    ensures any_moment { (old : ReplicaModel) → TookAs old (mail_of (message_of message.now)) (outcome_of outcome) (meaning replica.now) → IfSome brought.now (λ m. Joins old (mail_of (message_of m)) (meaning replica.now))
        → HasCleanDisk (log_state S.Store log.new) → Keeps (log_state S.Store log.old).now.trees old → KeepsEither (log_state S.Store log.new) old (meaning replica.now) }
    ensures clean { HasCleanDisk (log_state S.Store log.new) → HasCleanDisk (log_state S.Store log.old) }
    ensures stays { OnOk result (log.new.is_failed ≡ false) }
    ensures lost { IfErr result IsUnkept }
{
    // proof: the clause `ready` of `is_failed`.
    let _ = log.is_failed();
    match outcome {
        Outcome::Joined => keep_one(alloc, log, message),
        Outcome::Done => match brought {
            Some(delta) => keep_brought(alloc, log, delta),
            None => keep_all(alloc, log, replica),
        },
        Outcome::Sent => Ok(()),
        Outcome::Ignored => Ok(()),
        Outcome::Mismatch => Ok(()),
        Outcome::Gone => Ok(()),
    }
}

impl<S: Alter, H: PathHash> Store<S, H> {
    /// Takes a message in, as the replica's `deliver` does, and returns once what it brought is on the disk: what came of it, and what is to be
    /// sent for it.
    ///
    /// A message that knows a write of this name that the replica does not know is refused as such: the file is not the newest of its name.
    /// Then nothing changed, nor where the replica refuses the message for want of memory. Any other error leaves the store failed. Takes what the replica's
    /// call takes, and of an opening or a page of an own synchronisation what `joined_by` takes; for a delta a write of it to the disk, and where
    /// a synchronisation ends that brought something a write of the delta that it brought, or of all that is held where that is shorter or `joined_by`
    /// tells none, with a wait for it; and else no write.
    pub fn deliver(&mut self, alloc: Global, message: &Message) -> Result<Delivered, StoreError>
        ensures ok { IfOk result (λ told. Steps H.hash_of self.old.replica self.new.replica (Take (mail_of (message_of message.now))) (Came (outcome_of told.outcome)) (mails_of told.replies.items)) }
        ensures err { IfErr result (LeavesByTaking (mail_of (message_of message.now)) self.old self.new) }
        ensures ended { IsTrue self.old.is_failed → (result ≡ Err StoreError.Failed) × (self.new ≡ self.old) }
        ensures lost { HasLost (meaning self.old.replica) (mail_of (message_of message.now)) → self.old.is_failed ≡ false → (result ≡ Err StoreError.LostMemory) × (self.new ≡ self.old) }
        ensures kept { HasCleanDisk (log_state S.Store self.new.log) → OnOk result (IsKept (log_state S.Store self.new.log) (meaning self.new.replica)) }
        ensures any_moment { self.old.is_failed ≡ false → HasCleanDisk (log_state S.Store self.new.log) → KeepsEither (log_state S.Store self.new.log) (meaning self.old.replica) (meaning self.new.replica) }
    {
        if self.is_failed {
            return Err(StoreError::Failed);
        }
        // proof: the clause `ready` of `is_failed`.
        let _ = self.log.is_failed();
        if self.replica.has_lost(message) {
            return Err(StoreError::LostMemory);
        }
        let brought = match brought(&self.replica, message) {
            Ok(brought) => brought,
            Err(refusal) => return Err(StoreError::Refused(refusal)),
        };
        let told = match self.replica.deliver(message) {
            Ok(told) => told,
            Err(refusal) => {
                drop(brought);
                return Err(StoreError::Refused(refusal));
            }
        };
        let kept = keep_taken(
            alloc,
            &mut self.log,
            &self.replica,
            message,
            &brought,
            told.outcome,
        );
        drop(brought);
        match kept {
            Ok(()) => Ok(told),
            Err(error) => {
                drop(told);
                self.is_failed = true;
                Err(error)
            }
        }
    }
}
