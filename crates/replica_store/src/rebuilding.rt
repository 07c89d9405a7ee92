// A replica from the strings that keep it.
ghost use Rattle.std.specs.Prelude.{◌≡◌, ◌⊎◌, map, IfOk, OnOk};
ghost use Rattle.causal_join.specs.OrMap.{OrMapValue, or_map_state};
ghost use Rattle.op_model.specs.Meaning.{MapState};
ghost use Rattle.wire_form.specs.Message.{Delta, Spells, message_of};
ghost use Rattle.replica_model.specs.Replica.{fresh, joins};
ghost use Rattle.replica_core.specs.Meaning.{meaning};
ghost use Rattle.replica_store.specs.Entry.{SaysDelta};
ghost use Rattle.replica_store.specs.Reading.{HasJoined};
ghost use Rattle.replica_store.specs.Rebuilt.{IsRebuilt};

use crate::entry::{Entry, read_entry};
use crate::reading::last_opened;
use crate::store_error::StoreError;
use causal_join::Causal;
use dots::{Name, Refusal};
use hash_path::PathHash;
use replica_core::Replica;
use saved_form::Saved;
use std::alloc::Global;
use wire_form::{Message, decode};

// The error that a refusal of the bytes is.
fn unread(refusal: Refusal) -> StoreError {
    match refusal {
        Refusal::OutOfMemory => StoreError::OutOfMemory,
        _ => StoreError::NotAReplica,
    }
}

// The message that the bytes spell, where it is a delta.
fn delta_in(alloc: Global, bytes: &[u8]) -> Result<Message, StoreError>
    ensures { IfOk result (λ message. (pair : OrMapValue) × Spells bytes.now (Delta pair) × (message_of message ≡ Delta pair)) }
{
    let message = match decode(alloc, bytes) {
        Ok(message) => message,
        Err(refusal) => return Err(unread(refusal)),
    };
    let is_delta = message.session().is_none();
    if !is_delta {
        drop(message);
        return Err(StoreError::NotAReplica);
    }
    Ok(message)
}

// Joins the delta of these bytes in.
fn join_bytes<H: PathHash>(
    alloc: Global,
    replica: &mut Replica<H>,
    bytes: &[u8],
) -> Result<(), StoreError>
    ensures { OnOk result ((pair : OrMapValue) × Spells bytes.now (Delta pair) × (meaning replica.new ≡ joins (meaning replica.old) (or_map_state pair))) }
{
    let message = delta_in(alloc, bytes)?;
    let told = replica.deliver(&message);
    drop(message);
    match told {
        Ok(told) => {
            drop(told);
            Ok(())
        }
        Err(_) => Err(StoreError::OutOfMemory),
    }
}

// Joins the delta of a string in, if it says one.
fn join_string<H: PathHash>(
    alloc: Global,
    replica: &mut Replica<H>,
    string: &[u8],
) -> Result<(), StoreError>
    ensures { OnOk result (((d : MapState) × SaysDelta string.now d × (meaning replica.new ≡ joins (meaning replica.old) d))
        ⊎ (((d : MapState) → SaysDelta string.now d → ⊥) × (meaning replica.new ≡ meaning replica.old))) }
{
    match read_entry(string) {
        Some(Entry::Changed(bytes)) => join_bytes(alloc, replica, bytes),
        Some(Entry::Named(_)) => Ok(()),
        Some(Entry::Opened(_)) => Ok(()),
        None => Err(StoreError::NotAReplica),
    }
}

// Joins the deltas of the strings in.
fn join_all<H: PathHash>(
    alloc: Global,
    replica: &mut Replica<H>,
    strings: &[Vec<u8>],
) -> Result<(), StoreError>
    ensures { OnOk result (HasJoined (map (λ string. string.items) strings.now) (meaning replica.old) (meaning replica.new)) }
{
    for string in strings {
        join_string(alloc, replica, string.as_slice())?;
    }
    Ok(())
}

// The replica of this name that opened so many sessions, and holds nothing.
fn empty<H: PathHash>(
    alloc: Global,
    hash: H,
    name: Name,
    opened: u64,
) -> Result<Replica<H>, StoreError>
    ensures { IfOk result (λ replica. meaning replica ≡ record (fresh name) { opened = opened }) }
{
    let saved = Saved {
        name,
        opened,
        live: Causal::bottom(alloc),
        group: Causal::bottom(alloc),
    };
    match Replica::resume(alloc, hash, saved) {
        Ok(replica) => Ok(replica),
        Err(_) => Err(StoreError::OutOfMemory),
    }
}

/// The replica of this name that the strings keep.
pub fn rebuild<H: PathHash>(
    alloc: Global,
    hash: H,
    name: Name,
    strings: &[Vec<u8>],
) -> Result<Replica<H>, StoreError>
    ensures rebuilt { IfOk result (λ replica. IsRebuilt (map (λ string. string.items) strings.now) (meaning replica)) }
    ensures name { IfOk result (λ replica. replica.name ≡ name) }
{
    let opened = last_opened(name, strings)?;
    let mut replica = empty(alloc, hash, name, opened)?;
    if let Err(error) = join_all(alloc, &mut replica, strings) {
        drop(replica);
        return Err(error);
    }
    Ok(replica)
}
