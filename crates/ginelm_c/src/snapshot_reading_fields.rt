// What a snapshot shows of fields, and its digest.
ghost use Rattle.std.specs.Prelude.{◌≡◌, ◌≢◌, Some, OnOk, OnErr, take};
ghost use Rattle.op_model.specs.Meaning.{Stands, HoldsField};
ghost use Rattle.op_model.specs.Place.{place_of, plain};
ghost use Rattle.ginelm_c.specs.Handling.{Between, StaysEmpty, StaysFull};
ghost use Rattle.ginelm_c.specs.Reading.{IsRootDigest, ShowsDigest};
ghost use Rattle.ginelm_c.specs.Snapshots.{ShowsThere, state_in};
ghost use Rattle.ginelm_c.specs.declared.snapshot.Snapshot.{Snapshot};

use crate::answer::{EMPTY, told};
use crate::reading_fields::copied_digest;
use crate::snapshot::Snapshot;
use crate::snapshot_handle::SnapshotHandle;
use crate::texts::Texts;
use delta_ops::{fields, values};
use dots::{Field, Key, Refusal};
use hash_path::Prefix;
use std::alloc::Global;

// The values of the field of the key become the texts.
fn show(alloc: Global, there: &mut Snapshot, key: &Key, field: &Field) -> Result<(), Refusal>
    ensures ok { OnOk result (ShowsThere there.old there.new (Stands (state_in there.old) (place_of key.now field.now))) }
    ensures unchanged { OnErr result (there.new ≡ there.old) }
{
    let values = values(alloc, &there.store, key, field)?;
    there.texts = Texts::Values(values);
    Ok(())
}

fn get(alloc: Global, there: &mut Snapshot, key: &[u8]) -> Result<(), Refusal>
    ensures ok { OnOk result (ShowsThere there.old there.new (Stands (state_in there.old) (plain key.now))) }
    ensures unchanged { OnErr result (there.new ≡ there.old) }
{
    let key = Key::new(alloc, key)?;
    show(alloc, there, &key, &Field::empty())
}

/// The values of the key at its empty field become the texts, ascending by bytes.
#[unsafe(no_mangle)]
pub extern "C" fn ginelm_snapshot_get(alloc: Global, here: &mut SnapshotHandle, key: &[u8]) -> u32
    ensures none { StaysEmpty here.old.value here.new.value result }
    ensures kept { StaysFull here.old.value here.new.value }
    ensures done { result ≡ 0 → Between here.old.value here.new.value (λ s t. ShowsThere s t (Stands (state_in s) (plain key.now))) }
    ensures refused { result ≢ 0 → here.new.value ≡ here.old.value }
{
    let Some(mut there) = here.take(alloc) else {
        return EMPTY;
    };
    let answer = told(get(alloc, &mut there, key));
    here.give(there);
    answer
}

fn get_field(alloc: Global, there: &mut Snapshot, key: &[u8], field: &[u8]) -> Result<(), Refusal>
    ensures ok { OnOk result (ShowsThere there.old there.new (Stands (state_in there.old) (place_of key.now field.now))) }
    ensures unchanged { OnErr result (there.new ≡ there.old) }
{
    let key = Key::new(alloc, key)?;
    let field = Field::new(alloc, field)?;
    show(alloc, there, &key, &field)
}

/// The values of the field of the key become the texts, ascending by bytes.
#[unsafe(no_mangle)]
pub extern "C" fn ginelm_snapshot_get_field(
    alloc: Global,
    here: &mut SnapshotHandle,
    key: &[u8],
    field: &[u8],
) -> u32
    ensures none { StaysEmpty here.old.value here.new.value result }
    ensures kept { StaysFull here.old.value here.new.value }
    ensures done { result ≡ 0 → Between here.old.value here.new.value (λ s t. ShowsThere s t (Stands (state_in s) (place_of key.now field.now))) }
    ensures refused { result ≢ 0 → here.new.value ≡ here.old.value }
{
    let Some(mut there) = here.take(alloc) else {
        return EMPTY;
    };
    let answer = told(get_field(alloc, &mut there, key, field));
    here.give(there);
    answer
}

// The fields of the key become the texts.
fn show_fields(alloc: Global, there: &mut Snapshot, key: &Key) -> Result<(), Refusal>
    ensures ok { OnOk result (ShowsThere there.old there.new (HoldsField (state_in there.old) key.now)) }
    ensures unchanged { OnErr result (there.new ≡ there.old) }
{
    let fields = fields(alloc, &there.store, key)?;
    there.texts = Texts::Fields(fields);
    Ok(())
}

fn show_fields_of(alloc: Global, there: &mut Snapshot, key: &[u8]) -> Result<(), Refusal>
    ensures ok { OnOk result (ShowsThere there.old there.new (HoldsField (state_in there.old) key.now)) }
    ensures unchanged { OnErr result (there.new ≡ there.old) }
{
    let key = Key::new(alloc, key)?;
    show_fields(alloc, there, &key)
}

/// The fields of the key that hold a value become the texts, ascending by bytes.
#[unsafe(no_mangle)]
pub extern "C" fn ginelm_snapshot_fields(
    alloc: Global,
    here: &mut SnapshotHandle,
    key: &[u8],
) -> u32
    ensures none { StaysEmpty here.old.value here.new.value result }
    ensures kept { StaysFull here.old.value here.new.value }
    ensures done { result ≡ 0 → Between here.old.value here.new.value (λ s t. ShowsThere s t (HoldsField (state_in s) key.now)) }
    ensures refused { result ≢ 0 → here.new.value ≡ here.old.value }
{
    let Some(mut there) = here.take(alloc) else {
        return EMPTY;
    };
    let answer = told(show_fields_of(alloc, &mut there, key));
    here.give(there);
    answer
}

// The root digest of what stands there, if a key does.
fn root_digest(there: &Snapshot) -> Option<[u8; 32]>
    ensures { IsRootDigest (state_in there.now) result }
{
    prefix_digest::digest(there.store.frozen(), Prefix::root())
}

fn digest(there: &Snapshot, out: &mut [u8], needed: &mut usize) -> u32
    ensures told { result ≡ 0 → ShowsDigest (state_in there.now) (take needed.new out.new) }
{
    copied_digest(root_digest(there), out, needed)
}

/// Copies the root digest, as ginelm_text copies a text: 32 bytes, or none where there is no key. It is that of the replica as it was.
#[unsafe(no_mangle)]
pub extern "C" fn ginelm_snapshot_digest(
    alloc: Global,
    here: &mut SnapshotHandle,
    out: &mut [u8],
    needed: &mut usize,
) -> u32
    ensures none { StaysEmpty here.old.value here.new.value result }
    ensures same { here.new.value ≡ here.old.value }
    ensures told { result ≡ 0 → (s : Snapshot) → here.old.value ≡ Some s → ShowsDigest (state_in s) (take needed.new out.new) }
{
    let Some(there) = here.take(alloc) else {
        return EMPTY;
    };
    let answer = digest(&there, out, needed);
    here.give(there);
    answer
}
