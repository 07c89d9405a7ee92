// What is kept in the log.
ghost use Rattle.std.specs.Prelude.{◌≡◌, ◌≤◌, ◌∷◌, false, OnOk, IfOk, IfErr};
ghost use Rattle.sqlite.specs.State.{HasCleanDisk, Survives};
ghost use Rattle.wire_form.specs.Message.{Spells, message_of};
ghost use Rattle.durable_log.specs.Log.{log_state, Gains, IsReady};
ghost use Rattle.replica_model.specs.Replica.{Replica, restarts};
ghost use Rattle.replica_store.specs.Entry.{CHANGED};
ghost use Rattle.replica_store.specs.Refusing.{IsUnkept};
ghost use Rattle.replica_store.specs.Kept.{Keeps, IsKept, KeepsEither, GainsMessage, GainsName, GainsNumber};

use crate::entry::{changed, named, opened};
use crate::store_error::StoreError;
use dots::Name;
use durable_log::Log;
use sqlite::Alter;
use std::alloc::Global;
use wire_form::{Message, encode};

// Keeps a string.
fn keep<S: Alter>(log: &mut Log<S>, string: &[u8]) -> Result<(), StoreError>
    ensures kept { HasCleanDisk (log_state S.Store log.new) → OnOk result (IsReady (log_state S.Store log.new) × Gains (log_state S.Store log.old).now.trees (log_state S.Store log.new).now.trees string.now) }
    ensures any_moment { Survives (log_state S.Store log.old) (log_state S.Store log.new) (λ db. Gains (log_state S.Store log.old).now.trees db string.now) }
    ensures stays { OnOk result (log.new.is_failed ≡ false) }
    ensures lost { IfErr result IsUnkept }
{
    match log.keep(string) {
        Ok(()) => Ok(()),
        Err(error) => Err(StoreError::Log(error)),
    }
}

// Keeps the delta of these bytes.
fn keep_delta<S: Alter>(alloc: Global, log: &mut Log<S>, delta: &[u8]) -> Result<(), StoreError>
    ensures kept { HasCleanDisk (log_state S.Store log.new) → OnOk result (IsReady (log_state S.Store log.new) × Gains (log_state S.Store log.old).now.trees (log_state S.Store log.new).now.trees (CHANGED ∷ delta.now)) }
    ensures any_moment { Survives (log_state S.Store log.old) (log_state S.Store log.new) (λ db. Gains (log_state S.Store log.old).now.trees db (CHANGED ∷ delta.now)) }
    ensures stays { OnOk result (log.new.is_failed ≡ false) }
    ensures lost { IfErr result IsUnkept }
{
    let Ok(string) = changed(alloc, delta) else {
        return Err(StoreError::OutOfMemory);
    };
    keep(log, string.as_slice())
}

/// Keeps the message, and gives its bytes.
pub fn keep_message<S: Alter>(
    alloc: Global,
    log: &mut Log<S>,
    message: &Message,
) -> Result<Vec<u8>, StoreError>
    ensures spelled { IfOk result (λ bytes. Spells bytes.items (message_of message.now)) }
    ensures kept { HasCleanDisk (log_state S.Store log.new) → OnOk result (IsReady (log_state S.Store log.new) × GainsMessage (log_state S.Store log.old).now.trees (log_state S.Store log.new).now.trees (message_of message.now)) }
    ensures any_moment { Survives (log_state S.Store log.old) (log_state S.Store log.new) (λ db. GainsMessage (log_state S.Store log.old).now.trees db (message_of message.now)) }
    ensures stays { OnOk result (log.new.is_failed ≡ false) }
    ensures lost { IfErr result IsUnkept }
{
    let Ok(bytes) = encode(alloc, message) else {
        return Err(StoreError::OutOfMemory);
    };
    keep_delta(alloc, log, bytes.as_slice())?;
    Ok(bytes)
}

// Keeps the number of an own session.
fn keep_opened<S: Alter>(alloc: Global, log: &mut Log<S>, number: u64) -> Result<(), StoreError>
    ensures kept { HasCleanDisk (log_state S.Store log.new) → OnOk result (IsReady (log_state S.Store log.new) × GainsNumber (log_state S.Store log.old).now.trees (log_state S.Store log.new).now.trees number) }
    ensures any_moment { Survives (log_state S.Store log.old) (log_state S.Store log.new) (λ db. GainsNumber (log_state S.Store log.old).now.trees db number) }
    ensures stays { OnOk result (log.new.is_failed ≡ false) }
    ensures lost { IfErr result IsUnkept }
{
    let Ok(string) = opened(alloc, number) else {
        return Err(StoreError::OutOfMemory);
    };
    keep(log, string.as_slice())
}

/// Keeps the number of an own session, which is above those that the replica opened before.
pub fn keep_number<S: Alter>(alloc: Global, log: &mut Log<S>, number: u64) -> Result<(), StoreError>
    requires { log.old.is_failed ≡ false }
    ensures kept { (old new : Replica) → Keeps (log_state S.Store log.old).now.trees old → old.opened ≤ number → restarts new ≡ record (restarts old) { opened = number }
        → HasCleanDisk (log_state S.Store log.new) → OnOk result (IsKept (log_state S.Store log.new) new) }
    ensures any_moment { (old new : Replica) → Keeps (log_state S.Store log.old).now.trees old → old.opened ≤ number → restarts new ≡ record (restarts old) { opened = number }
        → HasCleanDisk (log_state S.Store log.new) → KeepsEither (log_state S.Store log.new) old new }
    ensures clean { HasCleanDisk (log_state S.Store log.new) → HasCleanDisk (log_state S.Store log.old) }
    ensures stays { OnOk result (log.new.is_failed ≡ false) }
    ensures lost { IfErr result IsUnkept }
{
    // proof: the clause `ready` of `is_failed`.
    let _ = log.is_failed();
    keep_opened(alloc, log, number)
}

/// Keeps the name.
pub fn keep_name<S: Alter>(alloc: Global, log: &mut Log<S>, name: Name) -> Result<(), StoreError>
    ensures kept { HasCleanDisk (log_state S.Store log.new) → OnOk result (IsReady (log_state S.Store log.new) × GainsName (log_state S.Store log.old).now.trees (log_state S.Store log.new).now.trees name) }
    ensures any_moment { Survives (log_state S.Store log.old) (log_state S.Store log.new) (λ db. GainsName (log_state S.Store log.old).now.trees db name) }
    ensures stays { OnOk result (log.new.is_failed ≡ false) }
    ensures lost { IfErr result IsUnkept }
{
    let Ok(string) = named(alloc, name) else {
        return Err(StoreError::OutOfMemory);
    };
    keep(log, string.as_slice())
}
