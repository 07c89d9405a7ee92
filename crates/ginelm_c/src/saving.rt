// What is kept of a replica over a restart.
ghost use Rattle.std.specs.Prelude.{◌≡◌, ◌≢◌, Some, None, IfOk, OnOk, OnErr};
ghost use Rattle.replica_model.specs.Replica.{restarts};
ghost use Rattle.replica_core.specs.Meaning.{meaning};
ghost use Rattle.ginelm_c.specs.Handling.{Between, StaysEmpty, StaysFull};
ghost use Rattle.ginelm_c.specs.Saving.{ComesBack, Saves, SeesSaved};
ghost use Rattle.ginelm_c.specs.declared.held.Held.{Held};

use crate::answer::{EMPTY, FULL, NO_NAME, told};
use crate::handle::Handle;
use crate::held::Held;
use crate::texts::Texts;
use dots::{Name, Refusal};
use gen_trie::Frozen;
use hash_path::Fnv1a;
use replica_core::Replica;
use saved_form::{decode_saved, encode_saved};
use std::alloc::Global;

fn save(alloc: Global, held: &mut Held) -> Result<(), Refusal>
    ensures ok { OnOk result (Saves held.old held.new) }
    ensures unchanged { OnErr result (held.new ≡ held.old) }
{
    let bytes = saved_bytes(alloc, &held.replica)?;
    held.texts = Texts::Saved(bytes);
    Ok(())
}

// The bytes of what is saved of a replica.
fn saved_bytes(alloc: Global, replica: &Replica) -> Result<Vec<u8>, Refusal>
    ensures { IfOk result (λ bytes. ComesBack bytes.items (restarts (meaning replica.now))) }
{
    let checkpoint = replica.checkpoint()?;
    let saved = checkpoint.saved(alloc);
    drop(checkpoint);
    match saved {
        Ok(saved) => encode_saved(alloc, saved),
        Err(refusal) => Err(refusal),
    }
}

/// What the replica is to come back from becomes the text, which no message is. It is to be kept before anything is sent that was made, or asked for,
/// later.
#[unsafe(no_mangle)]
pub extern "C" fn ginelm_save(alloc: Global, here: &mut Handle) -> u32
    ensures none { StaysEmpty here.old.value here.new.value result }
    ensures kept { StaysFull here.old.value here.new.value }
    ensures done { result ≡ 0 → Between here.old.value here.new.value Saves }
    ensures refused { result ≢ 0 → here.new.value ≡ here.old.value }
{
    let Some(mut held) = here.take(alloc) else {
        return EMPTY;
    };
    let answer = told(save(alloc, &mut held));
    here.give(held);
    answer
}

// A replica behind a box of its own.
fn boxed(alloc: Global, replica: Replica) -> Result<Box<Held>, Refusal>
    ensures { IfOk result (λ held. held.value.replica ≡ replica) }
{
    let held = Box::new(
        alloc,
        Held {
            replica,
            texts: Texts::Nothing,
            watched: Frozen::new(alloc, Fnv1a),
        },
    )?;
    Ok(held)
}

fn resumed(alloc: Global, bytes: &[u8]) -> Result<Box<Held>, Refusal>
    ensures { IfOk result (λ held. ComesBack bytes.now (meaning held.value.replica)) }
{
    let saved = decode_saved(alloc, bytes)?;
    let replica = Replica::resume(alloc, Fnv1a, saved)?;
    boxed(alloc, replica)
}

/// Makes the replica that comes back from what was saved: 0, or 15 where the handle holds one, else 6 where the bytes are not what was saved,
/// else 1 where no memory is found. Where it is not 0 the handle stays as it is.
#[unsafe(no_mangle)]
pub extern "C" fn ginelm_resume(alloc: Global, here: &mut Handle, bytes: &[u8]) -> u32
    ensures made { result ≡ 0 → (here.old.value ≡ None) × ((x : Held) → here.new.value ≡ Some x → ComesBack bytes.now (meaning x.replica)) }
    ensures full { here.old.value ≢ None → result ≡ 15 }
    ensures refused { result ≢ 0 → here.new.value ≡ here.old.value }
{
    if let Some(held) = here.take(alloc) {
        here.give(held);
        return FULL;
    }
    match resumed(alloc, bytes) {
        Ok(held) => {
            here.give(held);
            0
        }
        Err(refusal) => u32::from(refusal.number()),
    }
}

fn renamed(alloc: Global, name: Name, bytes: &[u8]) -> Result<Box<Held>, Refusal>
    ensures { IfOk result (λ held. SeesSaved bytes.now name (meaning held.value.replica)) }
{
    let saved = decode_saved(alloc, bytes)?;
    let replica = Replica::new_from(alloc, name, Fnv1a, saved)?;
    boxed(alloc, replica)
}

/// Makes the replica of a name that was never used, which has seen what the saved one had seen: 0, or 15 where the handle holds one, else 16 where
/// the name is 0, else 6 where the bytes are not what was saved, else 1 where no memory is found. Where it is not 0 the handle stays as it is.
#[unsafe(no_mangle)]
pub extern "C" fn ginelm_new_from(alloc: Global, here: &mut Handle, name: u64, bytes: &[u8]) -> u32
    ensures made { result ≡ 0 → (here.old.value ≡ None) × ((x : Held) → here.new.value ≡ Some x → SeesSaved bytes.now name (meaning x.replica)) }
    ensures full { here.old.value ≢ None → result ≡ 15 }
    ensures refused { result ≢ 0 → here.new.value ≡ here.old.value }
{
    if let Some(held) = here.take(alloc) {
        here.give(held);
        return FULL;
    }
    let Some(name) = Name::new(name) else {
        return NO_NAME;
    };
    match renamed(alloc, name, bytes) {
        Ok(held) => {
            here.give(held);
            0
        }
        Err(refusal) => u32::from(refusal.number()),
    }
}
