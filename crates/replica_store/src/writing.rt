// The own writes and sessions of a store.
ghost use Rattle.std.specs.Prelude.{◌≡◌, ◌∷◌, List, [], false, Err, IfOk, IfErr, OnOk, IsTrue};
ghost use Rattle.sqlite.specs.State.{HasCleanDisk};
ghost use Rattle.durable_log.specs.Log.{log_state};
ghost use Rattle.op_model.specs.Place.{place_of, plain};
ghost use Rattle.replica_model.specs.Mail.{Mail, mail_of};
ghost use Rattle.wire_form.specs.Message.{message_of};
ghost use Rattle.replica_model.specs.Replica.{Replica as ReplicaModel};
ghost use Rattle.replica_model.specs.Step.{Do, Put, Remove, RemoveField, Clear, Flush, Ask, Made, Counted, Numbered, Nothing};
ghost use Rattle.replica_core.specs.Meaning.{meaning};
ghost use Rattle.replica_core.specs.Stepping.{Steps, IsRefused};
ghost use Rattle.replica_core.specs.Writing.{answer_of, call_of};
ghost use Rattle.replica_store.specs.Refusing.{IsUnkept, LeavesBy};
ghost use Rattle.replica_store.specs.Kept.{Keeps, IsKept, KeepsEither};
ghost use Rattle.replica_store.specs.Store.{AreSent, Writes};
ghost use Rattle.replica_store.specs.Behind.{IsBehind};

use crate::keeping::{keep_message, keep_number};
use crate::store::Store;
use crate::store_error::StoreError;
use crate::to_make::{ToClear, ToMake, ToPut, ToRemove, ToRemoveField};
use crate::written::Written;
use dots::{Dot, Field, Key, Name, Value};
use durable_log::Log;
use hash_path::PathHash;
use replica_core::{Replica, Write, Wrote};
use sqlite::Alter;
use std::alloc::Global;
use wire_form::Message;

/// Flushes what the replica made, keeps it, and gives its bytes. What the log kept before is the replica without it.
pub fn keep_flushed<S: Alter, H: PathHash>(
    alloc: Global,
    replica: &mut Replica<H>,
    log: &mut Log<S>,
) -> Result<Option<Vec<u8>>, StoreError>
    requires { log.old.is_failed ≡ false }
    ensures sent { IfOk result (λ delta. (out : List Mail) × AreSent delta out × Steps H.hash_of replica.old replica.new (Do Flush) Nothing out) }
    ensures kept { (kept : ReplicaModel) → IsBehind kept (meaning replica.old) → HasCleanDisk (log_state S.Store log.new) → Keeps (log_state S.Store log.old).now.trees kept
        → OnOk result (IsKept (log_state S.Store log.new) (meaning replica.new)) }
    ensures any_moment { (kept : ReplicaModel) → IsBehind kept (meaning replica.old) → HasCleanDisk (log_state S.Store log.new) → Keeps (log_state S.Store log.old).now.trees kept
        → KeepsEither (log_state S.Store log.new) kept (meaning replica.new) }
    ensures clean { HasCleanDisk (log_state S.Store log.new) → HasCleanDisk (log_state S.Store log.old) }
    ensures stays { OnOk result (log.new.is_failed ≡ false) }
    ensures lost { IfErr result IsUnkept }
{
    // proof: the clause `ready` of `is_failed`.
    let _ = log.is_failed();
    let Ok(sent) = replica.flush() else {
        return Err(StoreError::OutOfMemory);
    };
    let Some(message) = sent else {
        return Ok(None);
    };
    let kept = keep_message(alloc, log, &message);
    drop(message);
    match kept {
        Ok(bytes) => Ok(Some(bytes)),
        Err(error) => Err(error),
    }
}

impl<S: Alter, H: PathHash> Store<S, H> {
    // Makes a write, and returns once it is on the disk.
    fn keep_made<W: ToMake>(
        &mut self,
        alloc: Global,
        write: &W,
    ) -> Result<Written<W::Answer>, StoreError>
        ensures ok { IfOk result (λ written. (out : List Mail) × AreSent written.delta out
            × Writes H.hash_of self.old.replica self.new.replica (W.call write.now) (W.answered written.answer) out) }
        ensures err { IfErr result (LeavesBy (IsRefused self.old.replica (W.call write.now)) self.old self.new) }
        ensures ended { IsTrue self.old.is_failed → (result ≡ Err StoreError.Failed) × (self.new ≡ self.old) }
        ensures kept { HasCleanDisk (log_state S.Store self.new.log) → OnOk result (IsKept (log_state S.Store self.new.log) (meaning self.new.replica)) }
        ensures any_moment { self.old.is_failed ≡ false → HasCleanDisk (log_state S.Store self.new.log) → KeepsEither (log_state S.Store self.new.log) (meaning self.old.replica) (meaning self.new.replica) }
    {
        if self.is_failed {
            return Err(StoreError::Failed);
        }
        // proof: the clause `ready` of `is_failed`.
        let _ = self.log.is_failed();
        let answer = match write.make(&mut self.replica) {
            Ok(answer) => answer,
            Err(refusal) => return Err(StoreError::Refused(refusal)),
        };
        match keep_flushed(alloc, &mut self.replica, &mut self.log) {
            Ok(delta) => Ok(Written { answer, delta }),
            Err(error) => {
                self.is_failed = true;
                Err(error)
            }
        }
    }

    /// Makes any of the writes of a replica, as `put_field` makes a put: what it is answered, and the delta that is to be sent.
    pub fn write(&mut self, alloc: Global, write: &Write<'_>) -> Result<Written<Wrote>, StoreError>
        ensures ok { IfOk result (λ written. (out : List Mail) × AreSent written.delta out
            × Writes H.hash_of self.old.replica self.new.replica (call_of write.now) (answer_of written.answer) out) }
        ensures err { IfErr result (LeavesBy (IsRefused self.old.replica (call_of write.now)) self.old self.new) }
        ensures ended { IsTrue self.old.is_failed → (result ≡ Err StoreError.Failed) × (self.new ≡ self.old) }
        ensures kept { HasCleanDisk (log_state S.Store self.new.log) → OnOk result (IsKept (log_state S.Store self.new.log) (meaning self.new.replica)) }
        ensures any_moment { self.old.is_failed ≡ false → HasCleanDisk (log_state S.Store self.new.log) → KeepsEither (log_state S.Store self.new.log) (meaning self.old.replica) (meaning self.new.replica) }
    {
        self.keep_made(alloc, write)
    }

    /// Writes a value to the empty field of a key, as `put_field` does.
    pub fn put(
        &mut self,
        alloc: Global,
        key: &Key,
        value: &Value,
    ) -> Result<Written<Dot>, StoreError>
        ensures ok { IfOk result (λ written. (out : List Mail) × AreSent written.delta out
            × Writes H.hash_of self.old.replica self.new.replica (Put (plain key.now) value.now) (Made written.answer) out) }
        ensures err { IfErr result (LeavesBy (IsRefused self.old.replica (Put (plain key.now) value.now)) self.old self.new) }
        ensures ended { IsTrue self.old.is_failed → (result ≡ Err StoreError.Failed) × (self.new ≡ self.old) }
        ensures kept { HasCleanDisk (log_state S.Store self.new.log) → OnOk result (IsKept (log_state S.Store self.new.log) (meaning self.new.replica)) }
        ensures any_moment { self.old.is_failed ≡ false → HasCleanDisk (log_state S.Store self.new.log) → KeepsEither (log_state S.Store self.new.log) (meaning self.old.replica) (meaning self.new.replica) }
    {
        self.put_field(alloc, key, &Field::empty(), value)
    }

    /// Writes a value to a field of a key, and returns once that is on the disk: the dot of the write, and the delta that is to be sent.
    ///
    /// Where the replica refuses it, nothing changed. Any other error leaves the store failed: what is on the disk then is the replica
    /// with the write or without it, and that is told by opening it again. Takes what the replica's call and its flush take, and a write
    /// to the disk with a wait for it.
    pub fn put_field(
        &mut self,
        alloc: Global,
        key: &Key,
        field: &Field,
        value: &Value,
    ) -> Result<Written<Dot>, StoreError>
        ensures ok { IfOk result (λ written. (out : List Mail) × AreSent written.delta out
            × Writes H.hash_of self.old.replica self.new.replica (Put (place_of key.now field.now) value.now) (Made written.answer) out) }
        ensures err { IfErr result (LeavesBy (IsRefused self.old.replica (Put (place_of key.now field.now) value.now)) self.old self.new) }
        ensures ended { IsTrue self.old.is_failed → (result ≡ Err StoreError.Failed) × (self.new ≡ self.old) }
        ensures kept { HasCleanDisk (log_state S.Store self.new.log) → OnOk result (IsKept (log_state S.Store self.new.log) (meaning self.new.replica)) }
        ensures any_moment { self.old.is_failed ≡ false → HasCleanDisk (log_state S.Store self.new.log) → KeepsEither (log_state S.Store self.new.log) (meaning self.old.replica) (meaning self.new.replica) }
    {
        self.keep_made(alloc, &ToPut { key, field, value })
    }

    /// Removes a key with all its fields, as `put_field` writes one: how many dots it observed, and the delta that is to be sent.
    pub fn remove(&mut self, alloc: Global, key: &Key) -> Result<Written<u64>, StoreError>
        ensures ok { IfOk result (λ written. (out : List Mail) × AreSent written.delta out
            × Writes H.hash_of self.old.replica self.new.replica (Remove key.now) (Counted written.answer) out) }
        ensures err { IfErr result (LeavesBy (IsRefused self.old.replica (Remove key.now)) self.old self.new) }
        ensures ended { IsTrue self.old.is_failed → (result ≡ Err StoreError.Failed) × (self.new ≡ self.old) }
        ensures kept { HasCleanDisk (log_state S.Store self.new.log) → OnOk result (IsKept (log_state S.Store self.new.log) (meaning self.new.replica)) }
        ensures any_moment { self.old.is_failed ≡ false → HasCleanDisk (log_state S.Store self.new.log) → KeepsEither (log_state S.Store self.new.log) (meaning self.old.replica) (meaning self.new.replica) }
    {
        self.keep_made(alloc, &ToRemove { key })
    }

    /// Removes a field of a key, as `remove` does a key.
    pub fn remove_field(
        &mut self,
        alloc: Global,
        key: &Key,
        field: &Field,
    ) -> Result<Written<u64>, StoreError>
        ensures ok { IfOk result (λ written. (out : List Mail) × AreSent written.delta out
            × Writes H.hash_of self.old.replica self.new.replica (RemoveField (place_of key.now field.now)) (Counted written.answer) out) }
        ensures err { IfErr result (LeavesBy (IsRefused self.old.replica (RemoveField (place_of key.now field.now))) self.old self.new) }
        ensures ended { IsTrue self.old.is_failed → (result ≡ Err StoreError.Failed) × (self.new ≡ self.old) }
        ensures kept { HasCleanDisk (log_state S.Store self.new.log) → OnOk result (IsKept (log_state S.Store self.new.log) (meaning self.new.replica)) }
        ensures any_moment { self.old.is_failed ≡ false → HasCleanDisk (log_state S.Store self.new.log) → KeepsEither (log_state S.Store self.new.log) (meaning self.old.replica) (meaning self.new.replica) }
    {
        self.keep_made(alloc, &ToRemoveField { key, field })
    }

    /// Removes all keys, as `remove` does one.
    pub fn clear(&mut self, alloc: Global) -> Result<Written<u64>, StoreError>
        ensures ok { IfOk result (λ written. (out : List Mail) × AreSent written.delta out
            × Writes H.hash_of self.old.replica self.new.replica Clear (Counted written.answer) out) }
        ensures err { IfErr result (LeavesBy (IsRefused self.old.replica Clear) self.old self.new) }
        ensures ended { IsTrue self.old.is_failed → (result ≡ Err StoreError.Failed) × (self.new ≡ self.old) }
        ensures kept { HasCleanDisk (log_state S.Store self.new.log) → OnOk result (IsKept (log_state S.Store self.new.log) (meaning self.new.replica)) }
        ensures any_moment { self.old.is_failed ≡ false → HasCleanDisk (log_state S.Store self.new.log) → KeepsEither (log_state S.Store self.new.log) (meaning self.old.replica) (meaning self.new.replica) }
    {
        self.keep_made(alloc, &ToClear)
    }

    /// Opens a synchronisation with a peer, and returns once its number is on the disk: the number, and the hello that is to be sent.
    ///
    /// Where the replica refuses it, nothing changed. Any other error leaves the store failed. Takes what the replica's call takes, and a
    /// write to the disk with a wait for it.
    pub fn ask(&mut self, alloc: Global, peer: Name) -> Result<(u64, Message), StoreError>
        ensures ok { IfOk result (λ asked. Steps H.hash_of self.old.replica self.new.replica (Do (Ask peer)) (Numbered asked.0) (mail_of (message_of asked.1) ∷ [])) }
        ensures err { IfErr result (LeavesBy (IsRefused self.old.replica (Ask peer)) self.old self.new) }
        ensures ended { IsTrue self.old.is_failed → (result ≡ Err StoreError.Failed) × (self.new ≡ self.old) }
        ensures kept { HasCleanDisk (log_state S.Store self.new.log) → OnOk result (IsKept (log_state S.Store self.new.log) (meaning self.new.replica)) }
        ensures any_moment { self.old.is_failed ≡ false → HasCleanDisk (log_state S.Store self.new.log) → KeepsEither (log_state S.Store self.new.log) (meaning self.old.replica) (meaning self.new.replica) }
    {
        if self.is_failed {
            return Err(StoreError::Failed);
        }
        // proof: the clause `ready` of `is_failed`.
        let _ = self.log.is_failed();
        let (number, hello) = match self.replica.ask(peer) {
            Ok(asked) => asked,
            Err(refusal) => return Err(StoreError::Refused(refusal)),
        };
        match keep_number(alloc, &mut self.log, number) {
            Ok(()) => Ok((number, hello)),
            Err(error) => {
                drop(hello);
                self.is_failed = true;
                Err(error)
            }
        }
    }
}
