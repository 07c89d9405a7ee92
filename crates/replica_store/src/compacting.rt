// A store is kept anew, in few strings.
ghost use Rattle.std.specs.Prelude.{◌≡◌, ◌∷◌, List, ℕ, false, Err, IfOk, IfErr, OnOk, IsTrue};
ghost use Rattle.sqlite.specs.State.{HasCleanDisk};
ghost use Rattle.durable_log.specs.Log.{log_state};
ghost use Rattle.wire_form.specs.Message.{Spells, message_of};
ghost use Rattle.replica_core.specs.Meaning.{meaning};
ghost use Rattle.replica_store.specs.Entry.{NAMED, OPENED, CHANGED, SaysNumber};
ghost use Rattle.replica_store.specs.Kept.{Keeps, IsKept, KeepsAlways, TellAll, HasThreeRows};
ghost use Rattle.replica_store.specs.Refusing.{IsUnkept, LeavesBy};

use crate::entry::{changed, named, opened};
use crate::store::Store;
use crate::store_error::StoreError;
use crate::taking::saved;
use dots::Name;
use durable_log::Log;
use hash_path::PathHash;
use replica_core::Replica;
use saved_form::Saved;
use sqlite::Alter;
use std::alloc::{AllocError, Global};
use wire_form::{Message, encode};

// The strings that say all that is kept of a replica.
#[derive(Drop)]
struct Told {
    name: Vec<u8>,
    number: Vec<u8>,
    all: Vec<u8>,
}

fn delta_string(alloc: Global, message: &Message) -> Result<Vec<u8>, AllocError>
    ensures { IfOk result (λ string. (bytes : List ℕ) × Spells bytes (message_of message.now) × (string.items ≡ CHANGED ∷ bytes)) }
{
    let Ok(bytes) = encode(alloc, message) else {
        return Err(AllocError);
    };
    changed(alloc, bytes.as_slice())
}

fn strings(alloc: Global, own: Name, last: u64, message: &Message) -> Result<Told, AllocError>
    ensures { IfOk result (λ told. SaysNumber NAMED told.name.items own × SaysNumber OPENED told.number.items last
        × ((bytes : List ℕ) × Spells bytes (message_of message.now) × (told.all.items ≡ CHANGED ∷ bytes))) }
{
    let name = named(alloc, own)?;
    let number = opened(alloc, last)?;
    let all = delta_string(alloc, message)?;
    Ok(Told { name, number, all })
}

fn tell_all<H: PathHash>(alloc: Global, replica: &Replica<H>) -> Result<Told, StoreError>
    ensures told { IfOk result (λ told. TellAll (meaning replica.now) told.name.items told.number.items told.all.items) }
    ensures lost { IfErr result IsUnkept }
{
    let Saved {
        name,
        opened,
        live,
        group,
    } = saved(alloc, replica)?;
    drop(group);
    let message = Message::Delta(live);
    let told = strings(alloc, name, opened, &message);
    drop(message);
    match told {
        Ok(told) => Ok(told),
        Err(_) => Err(StoreError::OutOfMemory),
    }
}

// Keeps the replica anew, and takes out all else.
fn keep_anew<S: Alter, H: PathHash>(
    alloc: Global,
    log: &mut Log<S>,
    replica: &Replica<H>,
) -> Result<(), StoreError>
    requires { log.old.is_failed ≡ false }
    ensures kept { HasCleanDisk (log_state S.Store log.new) → Keeps (log_state S.Store log.old).now.trees (meaning replica.now) → OnOk result (IsKept (log_state S.Store log.new) (meaning replica.now)) }
    ensures few { HasCleanDisk (log_state S.Store log.new) → OnOk result (HasThreeRows (log_state S.Store log.new).now.trees) }
    ensures any_moment { HasCleanDisk (log_state S.Store log.new) → Keeps (log_state S.Store log.old).now.trees (meaning replica.now) → KeepsAlways (log_state S.Store log.new) (meaning replica.now) }
    ensures clean { HasCleanDisk (log_state S.Store log.new) → HasCleanDisk (log_state S.Store log.old) }
    ensures stays { OnOk result (log.new.is_failed ≡ false) }
    ensures lost { IfErr result IsUnkept }
{
    // proof: the clause `ready` of `is_failed`.
    let _ = log.is_failed();
    let Told { name, number, all } = tell_all(alloc, replica)?;
    match log.replace(name.as_slice(), number.as_slice(), all.as_slice()) {
        Ok(()) => Ok(()),
        Err(error) => Err(StoreError::Log(error)),
    }
}

impl<S: Alter, H: PathHash> Store<S, H> {
    /// Keeps the replica anew, as its name, the number of its last own session and all that it holds, and then takes out all that was kept
    /// before, so that the file is as small as the map. A crash in the middle is harmless.
    ///
    /// An error leaves the store failed. Takes time and memory in all that the replica holds and in all that was kept, and four writes to the
    /// disk with a wait for each.
    pub fn compact(&mut self, alloc: Global) -> Result<(), StoreError>
        ensures same { self.new.replica ≡ self.old.replica }
        ensures err { IfErr result (LeavesBy (λ refusal. ⊥) self.old self.new) }
        ensures ended { IsTrue self.old.is_failed → (result ≡ Err StoreError.Failed) × (self.new ≡ self.old) }
        ensures kept { HasCleanDisk (log_state S.Store self.new.log) → OnOk result (IsKept (log_state S.Store self.new.log) (meaning self.new.replica)) }
        ensures few { HasCleanDisk (log_state S.Store self.new.log) → OnOk result (HasThreeRows (log_state S.Store self.new.log).now.trees) }
        ensures any_moment { self.old.is_failed ≡ false → HasCleanDisk (log_state S.Store self.new.log) → KeepsAlways (log_state S.Store self.new.log) (meaning self.new.replica) }
    {
        if self.is_failed {
            return Err(StoreError::Failed);
        }
        match keep_anew(alloc, &mut self.log, &self.replica) {
            Ok(()) => Ok(()),
            Err(error) => {
                self.is_failed = true;
                Err(error)
            }
        }
    }
}
