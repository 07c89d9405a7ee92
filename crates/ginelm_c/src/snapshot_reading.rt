// What a snapshot shows: the keys, and the values at each.
ghost use Rattle.std.specs.Prelude.{◌≡◌, ◌≢◌, ◌↔◌, List, ℕ, Some, OnOk, OnErr, IsTrue, length};
ghost use Rattle.op_model.specs.Meaning.{StandsWithin, HoldsKey};
ghost use Rattle.replica_core.specs.Reading.{Lists};
ghost use Rattle.ginelm_c.specs.Handling.{Between, StaysEmpty, StaysFull};
ghost use Rattle.ginelm_c.specs.Snapshots.{ShowsThere, state_in};
ghost use Rattle.ginelm_c.specs.declared.snapshot.Snapshot.{Snapshot};

use crate::answer::{EMPTY, told};
use crate::snapshot::Snapshot;
use crate::snapshot_handle::SnapshotHandle;
use crate::texts::Texts;
use delta_ops::{keys, size, values_of_key};
use dots::{Key, Refusal};
use std::alloc::Global;

// The values of the key become the texts.
fn show_values(alloc: Global, there: &mut Snapshot, key: &Key) -> Result<(), Refusal>
    ensures ok { OnOk result (ShowsThere there.old there.new (StandsWithin (state_in there.old) key.now)) }
    ensures unchanged { OnErr result (there.new ≡ there.old) }
{
    let values = values_of_key(alloc, &there.store, key)?;
    there.texts = Texts::Values(values);
    Ok(())
}

fn show_values_of(alloc: Global, there: &mut Snapshot, key: &[u8]) -> Result<(), Refusal>
    ensures ok { OnOk result (ShowsThere there.old there.new (StandsWithin (state_in there.old) key.now)) }
    ensures unchanged { OnErr result (there.new ≡ there.old) }
{
    let key = Key::new(alloc, key)?;
    show_values(alloc, there, &key)
}

/// The values of the key over all its fields become the texts, ascending by bytes.
#[unsafe(no_mangle)]
pub extern "C" fn ginelm_snapshot_values_of_key(
    alloc: Global,
    here: &mut SnapshotHandle,
    key: &[u8],
) -> u32
    ensures none { StaysEmpty here.old.value here.new.value result }
    ensures kept { StaysFull here.old.value here.new.value }
    ensures done { result ≡ 0 → Between here.old.value here.new.value (λ s t. ShowsThere s t (StandsWithin (state_in s) key.now)) }
    ensures refused { result ≢ 0 → here.new.value ≡ here.old.value }
{
    let Some(mut there) = here.take(alloc) else {
        return EMPTY;
    };
    let answer = told(show_values_of(alloc, &mut there, key));
    here.give(there);
    answer
}

fn show_keys(alloc: Global, there: &mut Snapshot) -> Result<(), Refusal>
    ensures ok { OnOk result (ShowsThere there.old there.new (HoldsKey (state_in there.old))) }
    ensures unchanged { OnErr result (there.new ≡ there.old) }
{
    let keys = keys(alloc, &there.store)?;
    there.texts = Texts::Keys(keys);
    Ok(())
}

/// The keys that hold a value at some field become the texts, ascending by bytes.
#[unsafe(no_mangle)]
pub extern "C" fn ginelm_snapshot_keys(alloc: Global, here: &mut SnapshotHandle) -> u32
    ensures none { StaysEmpty here.old.value here.new.value result }
    ensures kept { StaysFull here.old.value here.new.value }
    ensures done { result ≡ 0 → Between here.old.value here.new.value (λ s t. ShowsThere s t (HoldsKey (state_in s))) }
    ensures refused { result ≢ 0 → here.new.value ≡ here.old.value }
{
    let Some(mut there) = here.take(alloc) else {
        return EMPTY;
    };
    let answer = told(show_keys(alloc, &mut there));
    here.give(there);
    answer
}

// Whether the key holds a value at some field.
fn has_key(there: &Snapshot, key: &Key) -> bool
    ensures { IsTrue result ↔ HoldsKey (state_in there.now) key.now }
{
    there.store.frozen().lookup(key).is_some()
}

fn contains(alloc: Global, there: &Snapshot, key: &[u8], is_there: &mut bool) -> Result<(), Refusal>
    ensures ok { OnOk result (IsTrue is_there.new ↔ HoldsKey (state_in there.now) key.now) }
    ensures untold { OnErr result (is_there.new ≡ is_there.old) }
{
    let key = Key::new(alloc, key)?;
    *is_there = has_key(there, &key);
    Ok(())
}

/// Tells whether the key holds a value at some field.
#[unsafe(no_mangle)]
pub extern "C" fn ginelm_snapshot_contains(
    alloc: Global,
    here: &mut SnapshotHandle,
    key: &[u8],
    is_there: &mut bool,
) -> u32
    ensures none { StaysEmpty here.old.value here.new.value result }
    ensures same { here.new.value ≡ here.old.value }
    ensures done { result ≡ 0 → (s : Snapshot) → here.old.value ≡ Some s → (IsTrue is_there.new ↔ HoldsKey (state_in s) key.now) }
    ensures untold { result ≢ 0 → is_there.new ≡ is_there.old }
{
    let Some(there) = here.take(alloc) else {
        return EMPTY;
    };
    let answer = told(contains(alloc, &there, key, is_there));
    here.give(there);
    answer
}

// How many keys hold a value at some field.
fn size_of(there: &Snapshot) -> u64
    ensures { (listed : List (List ℕ)) × Lists (HoldsKey (state_in there.now)) listed × (result ≡ length listed) }
{
    size(&there.store)
}

/// Tells how many keys hold a value at some field.
#[unsafe(no_mangle)]
pub extern "C" fn ginelm_snapshot_size(
    alloc: Global,
    here: &mut SnapshotHandle,
    size: &mut u64,
) -> u32
    ensures none { StaysEmpty here.old.value here.new.value result }
    ensures same { here.new.value ≡ here.old.value }
    ensures told { (s : Snapshot) → here.old.value ≡ Some s → (result ≡ 0)
        × ((listed : List (List ℕ)) × Lists (HoldsKey (state_in s)) listed × (size.new ≡ length listed)) }
{
    let Some(there) = here.take(alloc) else {
        return EMPTY;
    };
    *size = size_of(&there);
    here.give(there);
    0
}
